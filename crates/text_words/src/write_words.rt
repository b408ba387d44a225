ghost use Rattle.std.specs.Prelude.{◌≡◌, ◌++◌, OnOk, string_bytes, decimal, ◌∷◌, []};
ghost use Rattle.text_model.specs.Texts.{written};
ghost use Rattle.text_model.specs.Words.{bytes_word, bytes, number};

use etcd_types::{Bytes, NoMemory};
use itoa::Buffer;
use percent_encoding::percent_encode;
use text_model::ESCAPED;

/// Appends the word of these bytes.
#[tactic(auto, using(text_model::proofs::WordLaws::encode_is), unfolding(text_model::specs::Words::bytes_word))]
pub(crate) fn push_bytes_word(out: &mut String, bytes: &[u8]) -> Result<(), NoMemory>
    ensures { OnOk result (string_bytes out.new ≡ string_bytes out.old ++ bytes_word bytes.now) }
{
    match bytes {
        [] => out.push_str("~")?,
        [_, ..] => percent_encode(bytes, ESCAPED).append_to(out)?,
    }
    Ok(())
}

/// Appends bytes as a word, and a space.
#[tactic(auto, using(text_model::proofs::TextLaws::in_turn), unfolding(text_model::specs::Words::bytes))]
pub fn push_bytes(out: &mut String, value: &Bytes) -> Result<(), NoMemory>
    ensures { OnOk result (string_bytes out.new ≡ string_bytes out.old ++ written 32 (bytes.spell value.now)) }
{
    push_bytes_word(out, value.as_slice())?;
    out.push(' ')?;
    Ok(())
}

/// Appends a number as a word, and a space.
pub fn push_number(out: &mut String, number: u64) -> Result<(), NoMemory>
    ensures { OnOk result (string_bytes out.new ≡ string_bytes out.old ++ written 32 (decimal number ∷ [])) }
{
    push_digits(out, number)?;
    out.push(' ')?;
    Ok(())
}

/// Appends the digits of a number, and nothing behind them.
pub fn push_digits(out: &mut String, number: u64) -> Result<(), NoMemory>
    ensures { OnOk result (string_bytes out.new ≡ string_bytes out.old ++ decimal number) }
{
    out.push_str(Buffer::new().format(number))?;
    Ok(())
}

/// Appends a word as it is, and a space.
pub fn push_word(out: &mut String, word: &str) -> Result<(), NoMemory>
    ensures { OnOk result (string_bytes out.new ≡ string_bytes out.old ++ written 32 (word.now ∷ [])) }
{
    out.push_str(word)?;
    out.push(' ')?;
    Ok(())
}
