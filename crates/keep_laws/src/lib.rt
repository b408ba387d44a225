//! A theorem over the runs of one proxy on the keepalives that clients ask of it, on a public function with an empty body.
#![tactic(auto)]

ghost use Rattle.keep_laws.specs.Laws.{RunsRenew};

/// What a client's keepalive is replied with is the answer to a keepalive of its lease that was sent after it was asked, also where several
/// share one call. The premise is that the ownership keys which answers show are made of bytes.
pub fn keepalives_renew()
    ensures { RunsRenew }
{}
