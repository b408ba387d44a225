ghost use Rattle.std.specs.Prelude.{◌≡◌, ◌++◌, OnOk, string_bytes, ◌∷◌};
ghost use Rattle.text_model.specs.Forms.{Form, listed, read_several};
ghost use Rattle.text_model.specs.Words.{number, bytes};
ghost use Rattle.text_model.specs.Texts.{written};
ghost use Rattle.text_words.specs.Reading.{Gives};

use etcd_types::{Bytes, List, NoMemory};
use std::alloc::Global;
use text_words::{ReadError, Words, push_bytes, push_number, push_word, read_bytes, read_number};

/// A value that has a text of words.
pub trait Text: Drop {
    ghost form: { Form Self };

    /// Reads a value from the next words.
    fn read(alloc: Global, words: &mut Words) -> Result<Self, ReadError>
        ensures { Gives (λ x. (x, words.new)) result (form.read words.old) };

    /// Appends the value's words, each with a space behind it.
    fn push(&self, out: &mut String) -> Result<(), NoMemory>
        ensures { OnOk result (string_bytes out.new ≡ string_bytes out.old ++ written 32 (form.spell self.now)) };
}

/// Reads a list: the number of its members, and the members.
pub fn read_list<T: Text>(alloc: Global, words: &mut Words) -> Result<List<T>, ReadError>
    ensures { Gives (λ xs. (xs, words.new)) result ((listed number T.form).read words.old) }
{
    let count = read_number(words)?;
    Ok(read_members::<T>(alloc, words, count)?)
}

fn read_members<T: Text>(alloc: Global, words: &mut Words, count: u64) -> Result<List<T>, ReadError>
    ensures { Gives (λ xs. (xs, words.new)) result (read_several T.form.read count words.old) }
{
    let mut list = List::new(alloc);
    for _ in 0..count {
        list.push(T::read(alloc, words)?)?;
    }
    Ok(list)
}

/// Appends a list's words.
#[tactic(auto, using(text_model::proofs::TextLaws::in_turn))]
pub fn push_list<T: Text>(out: &mut String, list: &List<T>) -> Result<(), NoMemory>
    ensures { OnOk result (string_bytes out.new ≡ string_bytes out.old ++ written 32 ((listed number T.form).spell list.now)) }
{
    push_number(out, list.len() as u64)?;
    for member in list.as_slice() {
        member.push(out)?;
    }
    Ok(())
}

/// Appends a name, and then a value's words.
#[tactic(auto, using(text_model::proofs::TextLaws::in_turn))]
pub fn push_named<T: Text>(out: &mut String, name: &str, value: &T) -> Result<(), NoMemory>
    ensures { OnOk result (string_bytes out.new ≡ string_bytes out.old ++ written 32 (name.now ∷ T.form.spell value.now)) }
{
    push_word(out, name)?;
    value.push(out)?;
    Ok(())
}

impl Text for u64 {
    ghost form = { number };

    fn read(_alloc: Global, words: &mut Words) -> Result<u64, ReadError> {
        Ok(read_number(words)?)
    }

    fn push(&self, out: &mut String) -> Result<(), NoMemory> {
        push_number(out, *self)?;
        Ok(())
    }
}

impl Text for Bytes {
    ghost form = { bytes };

    fn read(alloc: Global, words: &mut Words) -> Result<Bytes, ReadError> {
        Ok(read_bytes(alloc, words)?)
    }

    fn push(&self, out: &mut String) -> Result<(), NoMemory> {
        push_bytes(out, self)?;
        Ok(())
    }
}
