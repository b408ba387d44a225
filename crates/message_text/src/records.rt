ghost use Rattle.std.specs.Prelude.{◌≡◌, ◌++◌, ◌∷◌, [], IfErr, OnOk, string_bytes, decimal};
ghost use Rattle.text_model.specs.Texts.{text_word};
ghost use Rattle.text_words.specs.Reading.{Gives, IsWrong};
ghost use Rattle.message_text.specs.Answers.{kv as kv_form, prev, header, header_numbers, dot};

use crate::text::Text;
use etcd_types::{Header, Kv, NoMemory};
use std::alloc::Global;
use text_words::{
    ReadError, Words, is_word, push_bytes, push_digits, push_number, push_word, read_bytes,
    read_number,
};

/// `K V CREATE MOD VERSION LEASE`
impl Text for Kv {
    ghost form = { kv_form };

    #[tactic(auto, unfolding(crate::specs::Answers::kv))]
    fn read(alloc: Global, words: &mut Words) -> Result<Kv, ReadError> {
        let key = read_bytes(alloc, words)?;
        let value = read_bytes(alloc, words)?;
        let create = read_number(words)?;
        let modified = read_number(words)?;
        let version = read_number(words)?;
        let lease = read_number(words)?;
        Ok(Kv {
            key,
            value,
            create,
            modified,
            version,
            lease,
        })
    }

    #[tactic(auto, using(text_model::proofs::TextLaws::in_turn), unfolding(crate::specs::Answers::kv))]
    fn push(&self, out: &mut String) -> Result<(), NoMemory> {
        push_bytes(out, &self.key)?;
        push_bytes(out, &self.value)?;
        push_number(out, self.create)?;
        push_number(out, self.modified)?;
        push_number(out, self.version)?;
        push_number(out, self.lease)?;
        Ok(())
    }
}

/// `+` and a record, or `-`.
impl Text for Option<Kv> {
    ghost form = { prev };

    #[tactic(auto, unfolding(crate::specs::Answers::prev))]
    fn read(alloc: Global, words: &mut Words) -> Result<Option<Kv>, ReadError> {
        let mark = words.take()?;
        if is_word(mark, "+") {
            Ok(Some(Kv::read(alloc, words)?))
        } else if is_word(mark, "-") {
            Ok(None)
        } else {
            Err(words.wrong())
        }
    }

    #[tactic(auto, using(text_model::proofs::TextLaws::in_turn), unfolding(crate::specs::Answers::prev))]
    fn push(&self, out: &mut String) -> Result<(), NoMemory> {
        match self {
            None => push_word(out, "-")?,
            Some(kv) => {
                push_word(out, "+")?;
                kv.push(out)?;
            }
        }
        Ok(())
    }
}

/// Four numbers with dots between them, in one word.
impl Text for Header {
    ghost form = { header };

    #[tactic(auto, unfolding(crate::specs::Answers::header))]
    fn read(_alloc: Global, words: &mut Words) -> Result<Header, ReadError> {
        let word = words.take()?;
        match header_of(word) {
            None => Err(words.wrong()),
            Some(header) => Ok(header),
        }
    }

    #[tactic(auto, using(text_model::proofs::TextLaws::in_turn), unfolding(crate::specs::Answers::header, crate::specs::Answers::header_numbers))]
    fn push(&self, out: &mut String) -> Result<(), NoMemory> {
        push_dotted(out, self.cluster)?;
        push_dotted(out, self.member)?;
        push_dotted(out, self.revision)?;
        push_number(out, self.term)?;
        Ok(())
    }
}

/// Appends a number, and a dot.
fn push_dotted(out: &mut String, number: u64) -> Result<(), NoMemory>
    ensures { OnOk result (string_bytes out.new ≡ string_bytes out.old ++ decimal number ++ 46 ∷ []) }
{
    push_digits(out, number)?;
    out.push('.')?;
    Ok(())
}

fn header_of(word: &[u8]) -> Option<Header>
    ensures { result ≡ text_word dot header_numbers word.now }
{
    let mut parts = Words::of(b'.', word);
    match read_header_numbers(&mut parts) {
        Err(_) => None,
        Ok(header) => match parts.end() {
            Err(_) => None,
            Ok(()) => Some(header),
        },
    }
}

#[tactic(auto, unfolding(crate::specs::Answers::header_numbers))]
fn read_header_numbers(parts: &mut Words) -> Result<Header, ReadError>
    ensures wrong { IfErr result IsWrong }
    ensures value { Gives (λ h. (h, parts.new)) result (header_numbers.read parts.old) }
{
    let cluster = read_number(parts)?;
    let member = read_number(parts)?;
    let revision = read_number(parts)?;
    let term = read_number(parts)?;
    Ok(Header {
        cluster,
        member,
        revision,
        term,
    })
}
