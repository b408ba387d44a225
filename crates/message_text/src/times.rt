ghost use Rattle.std.specs.Prelude.{◌≡◌, ◌++◌, ◌∷◌, [], pos, bytes_eq, codes, OnOk, string_bytes, Some, None};
ghost use Rattle.std.specs.Fmt.{signed_decimal};
ghost use Rattle.text_model.specs.Forms.{respelled};
ghost use Rattle.text_model.specs.Texts.{written};
ghost use Rattle.text_words.specs.Reading.{Gives};
ghost use Rattle.message_text.specs.Answers.{is_ttl, ttl_guess, ttl as ttl_form};

use etcd_types::NoMemory;
use text_words::{MAX_NUMBER, ReadError, Words, is_word, number_of};

/// Reads a time to live: a number, or `-1`.
#[tactic(auto, unfolding(crate::specs::Answers::ttl))]
pub(crate) fn read_ttl(words: &mut Words) -> Result<i64, ReadError>
    ensures { Gives (λ t. (t, words.new)) result (ttl_form.read words.old) }
{
    let word = words.take()?;
    match ttl_of(word) {
        None => Err(words.wrong()),
        Some(ttl) => Ok(ttl),
    }
}

fn ttl_of(word: &[u8]) -> Option<i64>
    ensures { result ≡ respelled signed_decimal ttl_guess is_ttl word.now }
{
    if is_word(word, "-1") {
        return Some(-1);
    }
    match number_of(word, 0, MAX_NUMBER) {
        None => None,
        Some(number) => Some(number as i64),
    }
}

/// Appends a time to live.
pub(crate) fn push_ttl(out: &mut String, ttl: i64) -> Result<(), NoMemory>
    ensures { OnOk result (string_bytes out.new ≡ string_bytes out.old ++ written 32 (signed_decimal ttl ∷ [])) }
{
    write!(out, "{ttl} ")?;
    Ok(())
}
