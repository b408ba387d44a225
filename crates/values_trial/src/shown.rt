use etcd_types::{Answer, Bytes, Reply};
use message_text::Text;
use std::alloc::Global;
use table_rows::Wrong;
use text_words::{Words, push_bytes};

/// The words of a case.
pub fn words(case: &str) -> Words<'_> {
    Words::of(b' ', case.as_bytes())
}

/// The value's text.
pub fn shown<T: Text>(alloc: Global, value: &T) -> Result<String, Wrong> {
    let mut out = String::new(alloc);
    value.push(&mut out)?;
    trimmed(alloc, &out)
}

/// A name, and then the bytes as a word.
pub fn named(alloc: Global, name: &str, bytes: &Bytes) -> Result<String, Wrong> {
    let mut out = String::from_str(alloc, name)?;
    push_bytes(&mut out, bytes)?;
    trimmed(alloc, &out)
}

/// Without the space behind the last word.
pub fn trimmed(alloc: Global, out: &String) -> Result<String, Wrong> {
    Ok(String::from_str(alloc, out.as_str().trim_end())?)
}

/// What was done, where an answer says so.
pub fn done(answer: Answer) -> Result<Reply, Wrong> {
    match answer {
        Answer::Done(reply) => Ok(reply),
        Answer::Refused(_) => Err(Wrong::Word),
    }
}
