ghost use Rattle.audit_laws.specs.Takes.{TakesAreTheirs};
ghost use Rattle.audit_laws.specs.Truth.{AuditedAreTrue};
ghost use Rattle.audit_laws.specs.Laws.{EachItemKeepsTheRules, AnswersAreTheirs, MessagesAreTheirs, ReadsAreTheirs, SnapshotsAreTheirs};

/// No item of a transcript that keeps the rules breaks one behind the items before it, and a transcript of which no item does so keeps them.
pub fn each_item_keeps_the_rules()
    ensures { EachItemKeepsTheRules }
{}

/// Where a transcript keeps the rules, each answer and each message that is pushed is the store's.
pub fn answers_are_the_stores()
    ensures answers { AnswersAreTheirs }
    ensures messages { MessagesAreTheirs }
{}

/// Where a transcript keeps the rules, each read that was answered with no call of its own is a plain one, and true now; and each
/// transaction without writes that was answered so shows what the store answers to it.
pub fn unsent_replies_are_true()
    ensures reads { ReadsAreTheirs }
    ensures snapshots { SnapshotsAreTheirs }
{}

/// Where a transcript keeps the rules, each watch has received a prefix of what it asked for whenever it takes a message.
pub fn watches_take_a_prefix()
    ensures { TakesAreTheirs }
{}

/// All that a transcript has which keeps the rules, together.
pub fn audited_transcripts_are_true()
    ensures { AuditedAreTrue }
{}
