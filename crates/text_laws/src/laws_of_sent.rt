//! What a proxy sends has a text, where what it is asked and hears has one.
ghost use Rattle.text_laws.specs.Sent.Laws.{StartsFit, StepsFit};

/// A proxy begins so that all that it may send fits; each step keeps that, and what it sends has a text, where what it is asked and what
/// it hears has one and the revisions that it hears of are below the greatest number of a text.
pub fn requests_fit()
    ensures starts { StartsFit }
    ensures steps { StepsFit }
{}
