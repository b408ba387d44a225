//! Must acquire, of every script: where a proxy is live and its leasing stream is up, the items of the transcript alone tell which reads are
//! first sent as acquires.
#![tactic(auto)]

ghost use Rattle.acquired_laws.specs.Scripts.{EachScriptAcquires};

/// By the items of a script's transcript: where a proxy is live and its leasing stream is up, the first call that names a plain read of a key
/// that is new to it is the acquire of that key, while that session lasts.
pub fn scripts_acquire()
    ensures { EachScriptAcquires }
{}
