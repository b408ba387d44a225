//! Must cache, of every script: the items of a transcript alone tell which keys a proxy owns, and while it is live its reads of them are
//! replied by their own lines.
#![tactic(auto)]

ghost use Rattle.owned_laws.specs.Caches.{EachScriptCaches, EachScriptAnswersSnapshots};
ghost use Rattle.owned_laws.specs.Worked.{TheKeyIsOwned, NoOtherIsOwned, AWriteTakesIt};
ghost use Rattle.owned_laws.specs.WorkedWrites.{AreWorked, WritesKeepIt, TheyWait, TransactionsKeepIt, OthersTakeIt};

/// By the items of a script's transcript: where a proxy is live and owns a key, a plain read of the key is replied by its own line, and so is
/// a transaction that only reads and compares keys that it owns.
pub fn scripts_cache()
    ensures reads { EachScriptCaches }
    ensures snapshots { EachScriptAnswersSnapshots }
{}

/// Of a worked transcript: the key whose acquire was won is owned, no other is, and a write of several keys takes it.
pub fn worked_keys()
    ensures owned { TheKeyIsOwned }
    ensures other { NoOtherIsOwned }
    ensures written { AWriteTakesIt }
{}

/// Of worked transcripts: a write of an owned key that is done or refused keeps it owned, as do two at a time, a transaction of several keys,
/// and one that is asked before the acquire is answered or sent; one that is lost, finds another owner, is answered too late, puts it with a
/// lease, deletes a range with it, overtakes another or is left takes it.
pub fn worked_writes()
    ensures stages { AreWorked }
    ensures kept { WritesKeepIt }
    ensures waiting { TheyWait }
    ensures transactions { TransactionsKeepIt }
    ensures taken { OthersTakeIt }
{}
