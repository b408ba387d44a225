use crate::wrong::Wrong;
use etcd_types::Bytes;
use message_text::Text;
use std::alloc::Global;
use std::str;
use text_words::{Words, read_bytes};

/// What stands before and behind the first separator.
pub fn parts<'a>(text: &'a str, separator: &str) -> Result<(&'a str, &'a str), Wrong> {
    match text.split_once(separator) {
        Some(parts) => Ok(parts),
        None => Err(Wrong::Word),
    }
}

/// The value that this text is.
pub fn read_text<T: Text>(alloc: Global, text: &str) -> Result<T, Wrong> {
    let mut words = Words::of(b' ', text.as_bytes());
    let value = T::read(alloc, &mut words)?;
    words.end()?;
    Ok(value)
}

/// The bytes of a body, which stands as it is, or is spelled as bytes are in scripts where it begins with `%` or `~`.
pub fn read_body(alloc: Global, body: &str) -> Result<Bytes, Wrong> {
    if !body.starts_with("%") && !body.starts_with("~") {
        return Ok(Bytes::from_slice(alloc, body.as_bytes())?);
    }
    let mut words = Words::of(b' ', body.as_bytes());
    let bytes = read_bytes(alloc, &mut words)?;
    words.end()?;
    Ok(bytes)
}

/// The bytes as a text, or `?` where they are none.
pub fn text(bytes: &[u8]) -> &str {
    match str::from_utf8(bytes) {
        Ok(text) => text,
        Err(_) => "?",
    }
}
