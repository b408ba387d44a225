//! Sessions as a transcript tells them: whether a proxy's session is live, its number and its deadline, read off the items alone.
#![tactic(auto)]

ghost use Rattle.session_laws.specs.Told.{SessionsAreTold};

/// What the items of a transcript tell of a proxy's session is what the proxy has: at its clock's reading and at each later one, whether
/// the session is live, its number and its deadline.
pub fn sessions_are_told()
    ensures { SessionsAreTold }
{}
