ghost use Rattle.std.specs.Prelude.{◌≡◌, IfOk};
ghost use Rattle.json_model.specs.WrittenReplies.{answer_status};
ghost use Rattle.http_talk.specs.Forms as spec;

use api_reply::encode_reply;
use etcd_types::{Answer, Bytes, NoMemory, Refusal};
use serde_json::Value;
use std::alloc::Global;

/// How refusals are written.
#[derive(Clone, Copy, Debug, PartialEq, Eq)]
pub enum RefusalForm {
    /// As the JSON mapping has them: a code and a message.
    Mapping,
    /// As the gateway of etcd 3.4 writes them: the message also as `error`.
    Etcd,
}

/// A text as a JSON string.
pub(crate) fn string_text(alloc: Global, text: &[u8]) -> Result<Bytes, NoMemory>
    ensures { IfOk result (λ written. written ≡ spec.string_text text.now) }
{
    let value = Value::String(String::from_utf8_lossy(alloc, text)?);
    Ok(Bytes::from_vec(value.to_vec(alloc)?))
}

/// A refusal as etcd writes it.
#[tactic(auto, unfolding(crate::specs::Forms::etcd_text))]
fn etcd_text(alloc: Global, refusal: &Refusal) -> Result<Bytes, NoMemory>
    ensures { IfOk result (λ written. written ≡ spec.etcd_text refusal.now) }
{
    let message = string_text(alloc, refusal.text.as_slice())?;
    let code = format!(in alloc; "{}", refusal.code)?;
    let mut text = Vec::from_slice(alloc, b"{\"error\":")?;
    text.extend_from_slice(message.as_slice())?;
    text.extend_from_slice(b",\"message\":")?;
    text.extend_from_slice(message.as_slice())?;
    text.extend_from_slice(b",\"code\":")?;
    text.extend_from_slice(code.as_bytes())?;
    text.push(b'}')?;
    Ok(Bytes::from_vec(text))
}

/// The status of an answer, and its body in this form.
pub(crate) fn encode_by(
    alloc: Global,
    form: RefusalForm,
    answer: &Answer,
) -> Result<(u16, Bytes), NoMemory>
    ensures status { IfOk result (λ r. r.0 ≡ answer_status answer.now) }
    ensures text { IfOk result (λ r. r.1 ≡ spec.body_by form answer.now) }
{
    let (status, body) = encode_reply(alloc, answer)?;
    match form {
        RefusalForm::Mapping => Ok((status, body)),
        RefusalForm::Etcd => match answer {
            Answer::Done(_) => Ok((status, body)),
            Answer::Refused(refusal) => Ok((status, etcd_text(alloc, refusal)?)),
        },
    }
}
