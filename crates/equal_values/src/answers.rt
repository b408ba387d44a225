ghost use Rattle.std.specs.Prelude.{◌≡◌};
ghost use Rattle.equal_values.specs.Answers.{same_answer as is_same_answer, same_refusal as is_same_refusal, same_reply as is_same_reply};

use crate::bodies::same_body;
use crate::records::{same_bytes, same_header};
use etcd_types::{Answer, Refusal, Reply};

/// Whether two replies have the same header and the same body.
pub fn same_reply(told: &Reply, due: &Reply) -> bool
    ensures { result ≡ is_same_reply told.now due.now }
{
    same_header(&told.header, &due.header) && same_body(&told.body, &due.body)
}

/// Whether two refusals have the same code and the same text.
pub fn same_refusal(told: &Refusal, due: &Refusal) -> bool
    ensures { result ≡ is_same_refusal told.now due.now }
{
    told.code == due.code && same_bytes(&told.text, &due.text)
}

/// Whether two answers are the same.
pub fn same_answer(told: &Answer, due: &Answer) -> bool
    ensures { result ≡ is_same_answer told.now due.now }
{
    match (told, due) {
        (Answer::Done(told), Answer::Done(due)) => same_reply(told, due),
        (Answer::Refused(told), Answer::Refused(due)) => same_refusal(told, due),
        (_, _) => false,
    }
}
