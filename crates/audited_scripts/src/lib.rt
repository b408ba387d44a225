//! What `replay` writes, `audit` takes: the items of every script keep the rules of the audit, and of the text that is written of them no
//! line is refused, but where one passes a limit.
#![tactic(auto)]

ghost use Rattle.audited_scripts.specs.Scripts.{EachScriptKeepsTheRules, EachReplayIsTaken, AuditsTakeReplays};

/// The items of every script's bytes keep the rules.
pub fn scripts_keep_the_rules()
    ensures { EachScriptKeepsTheRules }
{}

/// What a replay writes of them is taken within the limits.
pub fn replays_are_taken()
    ensures { EachReplayIsTaken }
{}

/// An audit takes what a replay wrote, by both clauses of the program.
pub fn audits_take_replays()
    ensures { AuditsTakeReplays }
{}
