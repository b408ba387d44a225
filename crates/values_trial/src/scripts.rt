use script_text::{Item, Line, LineFault, read_item, read_line, write_item};
use std::alloc::Global;
use table_rows::{Wrong, parts};
use text_words::{Words, read_number};

/// What comes of a row's case.
pub fn came_of(alloc: Global, case: &str) -> Result<String, Wrong> {
    let (kind, text) = parts(case, " ")?;
    if kind == "item" {
        read_back(alloc, text)
    } else {
        line_of(alloc, text)
    }
}

/// The item, read and written again.
fn read_back(alloc: Global, text: &str) -> Result<String, Wrong> {
    match read_item(alloc, text.as_bytes()) {
        Ok(item) => written(alloc, &item),
        Err(fault) => refused(alloc, fault),
    }
}

fn written(alloc: Global, item: &Item) -> Result<String, Wrong> {
    let bytes = write_item(alloc, item)?;
    Ok(String::from_str(alloc, table_rows::text(bytes.as_slice()))?)
}

fn refused(alloc: Global, fault: LineFault) -> Result<String, Wrong> {
    match fault {
        LineFault::BadLine { number, place } => Ok(format!(in alloc; "wrong {number} {place}")?),
        LineFault::NoMemory => Err(Wrong::NoMemory),
    }
}

/// A line by its number and its text.
fn line_of(alloc: Global, case: &str) -> Result<String, Wrong> {
    let (number, text) = parts(case, " ")?;
    match read_line(alloc, number_of(number)?, text.as_bytes()) {
        Ok(line) => shown(alloc, &line),
        Err(fault) => refused(alloc, fault),
    }
}

fn number_of(word: &str) -> Result<u64, Wrong> {
    let mut words = Words::of(b' ', word.as_bytes());
    let number = read_number(&mut words)?;
    words.end()?;
    Ok(number)
}

/// The line's kind with its values.
fn shown(alloc: Global, line: &Line) -> Result<String, Wrong> {
    Ok(format!(in alloc; "{line:?}")?)
}
