ghost use Rattle.message_text.specs.Answers.{answer};

use crate::text::Text;
use etcd_types::{Answer, Body, Header, NoMemory, Refusal, Reply};
use std::alloc::Global;
use text_words::{
    ReadError, Words, is_word, push_bytes, push_number, push_word, read_bytes, read_number_within,
};

/// The greatest code of a refusal.
const MAX_CODE: u64 = 0xffff_ffff;

/// `ok HEADER BODY` or `err CODE TEXT`
impl Text for Answer {
    ghost form = { answer };

    #[tactic(auto, unfolding(crate::specs::Answers::answer, crate::specs::Answers::refusal_words))]
    fn read(alloc: Global, words: &mut Words) -> Result<Answer, ReadError> {
        let name = words.take()?;
        if is_word(name, "ok") {
            let header = Header::read(alloc, words)?;
            let body = Body::read(alloc, words)?;
            Ok(Answer::Done(Reply { header, body }))
        } else if is_word(name, "err") {
            let code = read_number_within(words, 0, MAX_CODE)?;
            let text = read_bytes(alloc, words)?;
            Ok(Answer::Refused(Refusal {
                code: code as u32,
                text,
            }))
        } else {
            Err(words.wrong())
        }
    }

    #[tactic(auto, using(text_model::proofs::TextLaws::in_turn), unfolding(crate::specs::Answers::answer, crate::specs::Answers::refusal_words))]
    fn push(&self, out: &mut String) -> Result<(), NoMemory> {
        match self {
            Answer::Done(reply) => {
                push_word(out, "ok")?;
                reply.header.push(out)?;
                reply.body.push(out)?;
            }
            Answer::Refused(refusal) => {
                push_word(out, "err")?;
                push_number(out, u64::from(refusal.code))?;
                push_bytes(out, &refusal.text)?;
            }
        }
        Ok(())
    }
}
