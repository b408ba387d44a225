ghost use Rattle.std.specs.Prelude.{◌≡◌};
ghost use Rattle.audit_model.specs.Answers.{is_due_answer as is_answer_due, is_due_message as is_message_due};

use equal_values::{same_answer, same_message};
use etcd_types::{Answer, WatchItem};

/// Whether this is the answer that is due.
pub(crate) fn is_due_answer(told: &Answer, due: &Option<Answer>) -> bool
    ensures { result ≡ is_answer_due told.now due.now }
{
    match due {
        Some(due) => same_answer(told, due),
        None => false,
    }
}

/// Whether this is the message that is due.
pub(crate) fn is_due_message(told: &WatchItem, due: &Option<WatchItem>) -> bool
    ensures { result ≡ is_message_due told.now due.now }
{
    match due {
        Some(due) => same_message(told, due),
        None => false,
    }
}
