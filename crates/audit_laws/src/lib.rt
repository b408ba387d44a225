//! Laws of transcripts that keep the rules of the audit, each a public function without a body: such a transcript has what the headline
//! says of a replay's, by the same definitions.
#![tactic(auto)]

mod laws;

pub use laws::{
    answers_are_the_stores, audited_transcripts_are_true, each_item_keeps_the_rules,
    unsent_replies_are_true, watches_take_a_prefix,
};
