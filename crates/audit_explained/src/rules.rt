// The rules, each in a sentence.

use audit_model::AuditFault;
use audit_past::Kind;

/// The rule that the item breaks.
pub(crate) fn rule_of(fault: &AuditFault, kind: Kind) -> &'static str {
    match fault {
        AuditFault::Order(_) => order_rule(kind),
        AuditFault::Answer(_) => "the answer to an executed call is the store's",
        AuditFault::Push(_) => "a pushed message is the one that the store has for the stream",
        AuditFault::Unsent(_) => {
            "an ok reply of a read that no call before it names is of a plain read or of a transaction without writes, shows what the store holds, and has a header no older than one that the proxy was given in this life and no newer than the store"
        }
        AuditFault::Watch(_) => {
            "what a watch takes begins with `created`, goes on with the events of the history for it, each once and in order, and ends with a cancellation"
        }
        AuditFault::Early { .. } => {
            "a session expires only once the clock of the proxy that sent its grant reads its floor, the time until which its last grant and the keepalives since let it live"
        }
        AuditFault::NoMemory => "",
    }
}

/// The rule of a line that isn't the text of an item.
pub(crate) const LINE_RULE: &str = "each line is the text of an item";

fn order_rule(kind: Kind) -> &'static str {
    match kind {
        Kind::World => "`world` is the first item, with 1 to 9 members, and comes once",
        Kind::Started =>
            "`world` is the first item, and a proxy is started once, before its other items",
        Kind::Restarted => "a proxy is started before its other items",
        Kind::Ticked => "a proxy is started before its other items",
        Kind::Clock => "a proxy is started before its other items, and its clock doesn't go back",
        Kind::Asked => "a ticket of a proxy that was started is asked once in a life",
        Kind::Posted =>
            "a ticket of a proxy that was started is posted once in a life, and not behind its `asked`",
        _ => call_rule(kind),
    }
}

fn call_rule(kind: Kind) -> &'static str {
    match kind {
        Kind::Sent => {
            "calls are numbered from 1 in order; a proxy that was started sends them to members of the world, and none opens a watch"
        }
        Kind::Opened => {
            "streams are numbered from 1 in order; a proxy that was started opens them at members of the world, each for a watch"
        }
        Kind::Closed =>
            "a proxy closes a stream that it opened in this life, and that wasn't cut or closed",
        Kind::Executed => "a call is executed once, behind its `sent`",
        Kind::Answered => {
            "a call is answered once, in the life that sent it and behind its `executed`, and not where it was lost"
        }
        Kind::Lost =>
            "a call is lost once, in the life that sent it, and not where it was answered",
        Kind::Pushed => {
            "a message is pushed into a stream in the life that opened it, before it is cut, closed or cancelled"
        }
        Kind::Cut =>
            "a stream is cut in the life that opened it, before it is cut, closed or cancelled",
        Kind::Delivered => {
            "a message is delivered in the life that opened its stream, before that is cut or closed, and only where a pushed one waits"
        }
        _ => ticket_rule(kind),
    }
}

fn ticket_rule(kind: Kind) -> &'static str {
    match kind {
        Kind::Taken => "what a watch takes is of a ticket that was asked as one in this life",
        Kind::Pending =>
            "what a watch finds pending is of a ticket that was asked as one in this life",
        Kind::Left => "a ticket that leaves was asked or posted in this life",
        Kind::Body => "the body of a reply is of a ticket that was asked or posted in this life",
        Kind::Reply => "a ticket that was asked or posted in this life is replied once",
        Kind::Expired => "the store has the lease that expires",
        Kind::Applied => {
            "a member of the world applies a revision that isn't below the one that it has applied, nor above the store's"
        }
        _ => "`world` is the first item",
    }
}
