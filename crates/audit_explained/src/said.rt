use etcd_types::{Answer, Body, Bytes, Header, NoMemory, WatchItem};
use message_text::Text;
use std::alloc::Global;
use text_words::{push_bytes, push_digits, push_number, push_word};

/// What is said of an item that breaks a rule.
#[derive(Drop)]
pub(crate) struct Said {
    /// The item that would keep the rule, where there is one.
    pub(crate) expected: Option<String>,
    /// What stands there, and against what.
    pub(crate) found: Vec<u8>,
    /// The places, from 0, of the items that this rests on.
    pub(crate) places: Vec<usize>,
}

impl Said {
    /// With one more item that it rests on, where there is one.
    pub(crate) fn rest_on(&mut self, place: Option<usize>) -> Result<(), NoMemory> {
        if let Some(place) = place {
            self.places.push(place)?;
        }
        Ok(())
    }

    /// With the item of this name, with these numbers and this answer, as the one that would keep the rule.
    pub(crate) fn expect_answer(
        &mut self,
        alloc: Global,
        name: &str,
        numbers: &[u64],
        answer: &Answer,
    ) -> Result<(), NoMemory> {
        let mut text = String::new(alloc);
        push_answer(&mut text, name, numbers, answer)?;
        self.expected = Some(text);
        Ok(())
    }

    /// The same of a message.
    pub(crate) fn expect_message(
        &mut self,
        alloc: Global,
        name: &str,
        numbers: &[u64],
        message: &WatchItem,
    ) -> Result<(), NoMemory> {
        let mut text = String::new(alloc);
        push_message(&mut text, name, numbers, message)?;
        self.expected = Some(text);
        Ok(())
    }

    /// The same of an answer that the store did what was asked.
    pub(crate) fn expect_reply(
        &mut self,
        alloc: Global,
        name: &str,
        numbers: &[u64],
        header: &Header,
        body: &Body,
    ) -> Result<(), NoMemory> {
        let mut text = String::new(alloc);
        push_reply(&mut text, name, numbers, header, body)?;
        self.expected = Some(text);
        Ok(())
    }
}

/// Appends the words with which an item begins.
fn push_front(text: &mut String, name: &str, numbers: &[u64]) -> Result<(), NoMemory> {
    push_word(text, name)?;
    for number in numbers {
        push_number(text, *number)?;
    }
    Ok(())
}

/// Takes off the space behind the last word.
fn pop_space(text: &mut String) {
    let _space = text.pop();
}

fn push_answer(
    text: &mut String,
    name: &str,
    numbers: &[u64],
    answer: &Answer,
) -> Result<(), NoMemory> {
    push_front(text, name, numbers)?;
    answer.push(text)?;
    pop_space(text);
    Ok(())
}

fn push_message(
    text: &mut String,
    name: &str,
    numbers: &[u64],
    message: &WatchItem,
) -> Result<(), NoMemory> {
    push_front(text, name, numbers)?;
    message.push(text)?;
    pop_space(text);
    Ok(())
}

fn push_reply(
    text: &mut String,
    name: &str,
    numbers: &[u64],
    header: &Header,
    body: &Body,
) -> Result<(), NoMemory> {
    push_front(text, name, numbers)?;
    push_word(text, "ok")?;
    header.push(text)?;
    body.push(text)?;
    pop_space(text);
    Ok(())
}

/// These words were found, and the items that this rests on, as far as there are such.
pub(crate) fn tell_found(
    alloc: Global,
    found: Vec<u8>,
    places: &[Option<usize>],
) -> Result<Said, NoMemory> {
    let mut all = Said {
        expected: None,
        found,
        places: Vec::new(alloc),
    };
    for place in places {
        all.rest_on(*place)?;
    }
    Ok(all)
}

/// The same of words with numbers in the place of each `#`.
pub(crate) fn tell(
    alloc: Global,
    text: &str,
    numbers: &[u64],
    places: &[Option<usize>],
) -> Result<Said, NoMemory> {
    tell_found(alloc, filled(alloc, text, numbers)?, places)
}

/// Appends the digits of the number.
fn push_decimal(text: &mut Vec<u8>, alloc: Global, number: u64) -> Result<(), NoMemory> {
    let mut digits = String::new(alloc);
    push_digits(&mut digits, number)?;
    text.extend_from_slice(digits.as_bytes())?;
    Ok(())
}

/// These words with numbers in the place of each `#`.
pub(crate) fn filled(alloc: Global, text: &str, numbers: &[u64]) -> Result<Vec<u8>, NoMemory> {
    let mut words = Vec::new(alloc);
    let mut next = 0usize;
    for byte in text.as_bytes() {
        if *byte == b'#' {
            push_decimal(&mut words, alloc, numbers.get(next).copied().unwrap_or(0))?;
            next = next.saturating_add(1);
        } else {
            words.push(*byte)?;
        }
    }
    Ok(words)
}

/// Bytes as a transcript spells them.
pub(crate) fn spelled(alloc: Global, bytes: &Bytes) -> Result<String, NoMemory> {
    let mut text = String::new(alloc);
    push_bytes(&mut text, bytes)?;
    pop_space(&mut text);
    Ok(text)
}
