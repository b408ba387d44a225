ghost use Rattle.std.specs.Prelude.{◌≡◌, ◌∷◌, [], suc, length, ◌==◌, ◌^◌, MatchOption, MatchResult, take, drop, ◌+◌, ◌<◌, ◌≤◌, count_by, true, false};
ghost use Rattle.std.specs.List.{position as first_place};
ghost use Rattle.text_model.specs.Texts.{words};
ghost use Rattle.text_words.specs.declared.fault.ReadError.TheVariants.{Wrong};

use crate::fault::ReadError;
use std::marker::Model;

/// The words of a text that are still to be read. Contracts see it as the list of these words.
#[derive(Drop)]
pub struct Words<'a> {
    separator: u8,
    rest: &'a [u8],
    /// Whether `rest` has a word, which may be empty.
    more: bool,
}

impl<'a> Model for Words<'a> {
    ghost use Rattle.std.specs.Prelude.{List, ℕ, [], if◌then◌else◌};
    ghost use Rattle.text_model.specs.Texts.{words};

    ghost Value = { List (List ℕ) };

    ghost view = { λ w. if w.more then words w.separator w.rest.now else [] };
}

impl<'a> Words<'a> {
    /// All words of a text, which a separator divides.
    pub fn of(separator: u8, text: &'a [u8]) -> Words<'a>
        ensures { result ≡ words separator text.now }
    {
        Words {
            separator,
            rest: text,
            more: true,
        }
    }

    /// Takes the next word. The error says that one is missing.
    pub fn take(&mut self) -> Result<&'a [u8], ReadError>
        ensures { MatchResult result
            (λ word. self.old ≡ word.now ∷ self.new)
            (λ e. (e ≡ Wrong 0) × (self.old ≡ [])) }
    {
        match self.next() {
            None => Err(ReadError::Wrong(0)),
            Some(word) => Ok(word),
        }
    }

    fn next(&mut self) -> Option<&'a [u8]>
        ensures { MatchOption result (self.old ≡ []) (λ word. self.old ≡ word.now ∷ self.new) }
    {
        if !self.more {
            return None;
        }
        let rest = self.rest;
        match first_separator(self.separator, rest) {
            None => {
                self.more = false;
                Some(rest)
            }
            Some(end) => {
                self.rest = &rest[end + 1..];
                Some(&rest[..end])
            }
        }
    }

    /// The error at the word that was just taken.
    pub fn wrong(&self) -> ReadError
        ensures { result ≡ Wrong (suc (length self.now)) }
    {
        ReadError::Wrong(self.len() + 1)
    }

    /// Nothing may be left. The error is at the first word that is too many.
    pub fn end(&self) -> Result<(), ReadError>
        ensures { MatchResult result
            (λ _. (length self.now == 0) ≡ true)
            (λ e. (e ≡ Wrong (length self.now)) × ((length self.now == 0) ≡ false)) }
    {
        let left = self.len();
        if left == 0 {
            Ok(())
        } else {
            Err(ReadError::Wrong(left))
        }
    }

    /// How many words are left.
    pub fn len(&self) -> usize
        ensures bound { result ≤ 2 ^ 63 }
        ensures value { result ≡ length self.now }
    {
        if self.more {
            count(self.separator, self.rest)
        } else {
            0
        }
    }
}

fn first_separator(separator: u8, text: &[u8]) -> Option<usize>
    ensures { MatchOption result
        (words separator text.now ≡ text.now ∷ [])
        (λ end. (end < length text.now)
        × (words separator text.now ≡ take end text.now ∷ words separator (drop (end + 1) text.now))) }
{
    position(separator, text)
}

fn position(separator: u8, text: &[u8]) -> Option<usize>
    ensures { result ≡ first_place (λ b. b == separator) text.now }
{
    text.iter().position(|b| *b == separator)
}

#[tactic(auto, using(crate::proofs::Cuts::counted))]
fn count(separator: u8, text: &[u8]) -> usize
    ensures bound { result ≤ 2 ^ 63 }
    ensures value { result ≡ length (words separator text.now) }
{
    separators(separator, text) + 1
}

fn separators(separator: u8, text: &[u8]) -> usize
    ensures within { result ≤ length text.now }
    ensures value { result ≡ count_by (λ b. b == separator) text.now }
{
    text.iter().filter(|b| **b == separator).count()
}
