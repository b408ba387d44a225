use api_reply::NotReply;
use etcd_types::Bytes;
use message_text::Text;
use std::alloc::Global;
use table_rows::{Wrong, text};

/// The text of what was read, or `unreadable`.
pub fn told<T: Text>(alloc: Global, read: Result<T, NotReply>) -> Result<String, Wrong> {
    let mut told = String::new(alloc);
    match read {
        Ok(value) => push_text(alloc, &mut told, &value)?,
        Err(NotReply::Unreadable) => told.push_str("unreadable")?,
        Err(NotReply::NoMemory) => return Err(Wrong::NoMemory),
    }
    Ok(told)
}

fn push_text<T: Text>(alloc: Global, told: &mut String, value: &T) -> Result<(), Wrong> {
    let mut text = String::new(alloc);
    value.push(&mut text)?;
    told.push_str(text.as_str().trim_end())?;
    Ok(())
}

/// What came of a body, and what else came of it with a line feed behind it.
pub fn joined(plain: String, with_feed: String) -> Result<String, Wrong> {
    let mut joined = plain;
    if joined != with_feed {
        write!(joined, ", and with a line feed {with_feed}")?;
    }
    Ok(joined)
}

/// Tells the body that was written for a value, and what is read of it where that is another value.
pub fn written<T: Text + PartialEq>(
    alloc: Global,
    out: &mut String,
    body: &Bytes,
    value: &T,
    again: Result<T, NotReply>,
) -> Result<(), Wrong> {
    push_body(out, body)?;
    let same = match &again {
        Ok(read) => read == value,
        Err(_) => false,
    };
    if !same {
        write!(out, ", read as {}", told(alloc, again)?)?;
    }
    Ok(())
}

/// A line feed at the end is told as `\n`.
fn push_body(out: &mut String, body: &Bytes) -> Result<(), Wrong> {
    let text = text(body.as_slice());
    match text.strip_suffix("\n") {
        Some(line) => write!(out, "{line}\\n")?,
        None => out.push_str(text)?,
    }
    Ok(())
}
