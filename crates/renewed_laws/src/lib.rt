//! What clients are told of their keepalives, in every script of several proxies, by the very definition that the program's clause cites.
#![tactic(auto)]

ghost use Rattle.renewed_laws.specs.Laws.{EachScriptsKeepalivesRenew};

/// For every script and any number of proxies: each ok reply to a client's keepalive is the answer of an executed keepalive of that
/// lease, which the proxy sent after the request was asked and in the life in which it was. The premise is that the ownership keys
/// which executed answers show are made of bytes.
pub fn keepalives_renew()
    ensures { EachScriptsKeepalivesRenew }
{}
