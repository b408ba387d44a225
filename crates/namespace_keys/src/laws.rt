ghost use Rattle.namespace_keys.specs.Laws.{WrappedKeysAreAsked, AskedKeysAreWrapped, WrappedKeysAreUnwrapped, UnwrappedKeysWereWrapped};
ghost use Rattle.namespace_keys.specs.Laws.{RepliesAreRefusedByName, ItemsAreRefusedByName, ForeignLeaseKeysAreLeftOut, EndsPrefix, EndsFullPrefix};
ghost use Rattle.namespace_keys.specs.Laws.{WrapsAllKeys};

/// A wrapped range has no key but those of the range asked for, each with the prefix, and it has all of these but one: the
/// empty key of the range of all keys, whose key and end are one zero byte each.
pub fn wrapped_ranges_have_their_keys()
    ensures asked { WrappedKeysAreAsked }
    ensures all { AskedKeysAreWrapped }
{}

/// Unwrapping a wrapped key gives the key, and only what was wrapped is unwrapped.
pub fn wrapped_keys_come_back()
    ensures back { WrappedKeysAreUnwrapped }
    ensures only { UnwrappedKeysWereWrapped }
{}

/// A reply or a message of a watch is refused exactly where one of its keys lacks the prefix, by the first that does; the
/// keys of a lease that lack it are left out.
pub fn foreign_keys_are_named()
    ensures replies { RepliesAreRefusedByName }
    ensures items { ItemsAreRefusedByName }
    ensures leases { ForeignLeaseKeysAreLeftOut }
{}

/// Worked: the bytes 61 FF end at 62, and FF at 00; in the namespace `n/` all keys are those from `n/` and a zero byte to
/// below `n0`.
pub fn worked_prefixes()
    ensures prefix { EndsPrefix }
    ensures full { EndsFullPrefix }
    ensures all { WrapsAllKeys }
{}
