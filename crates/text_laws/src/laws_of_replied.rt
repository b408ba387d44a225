//! What a proxy replies, and what it gives to its watches, has a text, where what it is asked and hears has one.
ghost use Rattle.text_laws.specs.Replied.Laws.{StartsHold, StepsHold};

/// A proxy begins so that all that it may reply fits. Each step keeps that, with versions of records that are by 128 greater at most, and
/// what it replies and what a watch takes has a text, where what it is asked and what it hears has one and its numbers are small enough.
pub fn replies_fit()
    ensures starts { StartsHold }
    ensures steps { StepsHold }
{}
