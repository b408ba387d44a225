//! Laws over every prefix of a script: what holds of each proxy behind it, and where the ok replies come from that a line tells.
#![tactic(auto)]

ghost use Rattle.prefix_laws.specs.Prefixes.{EachProxyAgrees, EachProxyFits, WhatIsOutIsNamed, NoReplyIsLeft};
ghost use Rattle.prefix_laws.specs.Comes.{ToldRepliesCome, AskedReplyComes};
ghost use Rattle.prefix_laws.specs.Idle.{EachProxyIsSound, ScriptsLeaveNoneIdle};
ghost use Rattle.prefix_laws.specs.Lines.{LinesStaySound, LinesStayBounded};
ghost use Rattle.prefix_laws.specs.Shared.{ScriptsShareKeepalives};

/// Behind each prefix of a script the parts of every proxy agree and fit.
pub fn proxies_agree()
    ensures agree { EachProxyAgrees }
    ensures fit { EachProxyFits }
{}

/// Behind each prefix of a script, whatever a proxy has out for a request or as an acquire is named by a call that it sent in its life.
pub fn what_is_out_is_named()
    ensures { WhatIsOutIsNamed }
{}

/// Behind each prefix of a script no reply stands ready in any proxy that isn't worn.
pub fn no_reply_is_left()
    ensures { NoReplyIsLeft }
{}

/// Each ok reply that a line tells was given by its step of the proxy, or stood ready behind that step.
pub fn told_replies_come()
    ensures told { ToldRepliesCome }
    ensures asked { AskedReplyComes }
{}

/// Behind each prefix of a script every proxy is sound, and no request and no watch of any of them waits for nothing.
pub fn scripts_leave_none_idle()
    ensures sound { EachProxyIsSound }
    ensures idle { ScriptsLeaveNoneIdle }
{}

/// Behind each prefix of a script at most one keepalive of a lease is out at a proxy, and none is due beside it.
pub fn scripts_share_keepalives()
    ensures { ScriptsShareKeepalives }
{}

/// Each line, taken or refused, leaves proxies sound that were sound, and queues bounded that were bounded.
pub fn lines_stay_sound()
    ensures sound { LinesStaySound }
    ensures bounded { LinesStayBounded }
{}
