ghost use Rattle.core_laws.specs.Steps.Kept.{HeardBytes};
ghost use Rattle.core_laws.specs.Writes.Written.{ShowsBytes};

use etcd_types::Answer;
use shown_bytes::show_body;

// These do nothing but show that the keys in an answer are made of bytes, as every `Bytes` is.

/// What was heard shows keys that are bytes.
pub fn show_bytes(heard: &Option<Answer>)
    ensures { HeardBytes heard.now }
{
    match heard {
        Some(answer) => show_answer(answer),
        None => {}
    }
}

fn show_answer(answer: &Answer)
    ensures { ShowsBytes answer.now }
{
    match answer {
        Answer::Done(reply) => show_body(&reply.body),
        Answer::Refused(_) => {}
    }
}
