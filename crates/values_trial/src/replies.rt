use crate::reply_texts::{joined, told, written};
use api_reply::{decode_item, decode_reply, encode_item, encode_reply};
use etcd_types::{Answer, Bytes, Request, WatchItem};
use std::alloc::Global;
use table_rows::{Wrong, parts, read_body, read_text};
use text_words::number_of;

/// The greatest HTTP status.
const MOST_STATUS: u64 = 999;

/// Tries rows, where the replies are to the request that was asked last.
#[derive(Debug, Drop)]
pub struct Replies {
    alloc: Global,
    request: Request,
}

impl Replies {
    pub fn new(alloc: Global) -> Replies {
        Replies {
            alloc,
            request: Request::Leases,
        }
    }

    /// Takes the request with this text.
    pub fn ask(&mut self, text: &str) -> Result<(), Wrong> {
        self.request = read_text(self.alloc, text)?;
        Ok(())
    }

    /// What comes of a row's case.
    pub fn try_row(&self, case: &str) -> Result<String, Wrong> {
        let (kind, case) = parts(case, " ")?;
        match kind {
            "reply" => self.try_reply(case),
            "line" => try_line(self.alloc, case),
            "answer" => self.write_answer(case),
            "item" => write_item(self.alloc, case),
            _ => Err(Wrong::Word),
        }
    }

    fn try_reply(&self, case: &str) -> Result<String, Wrong> {
        let (status, body) = parts(case, " ")?;
        let status = read_status(status)?;
        let body = read_body(self.alloc, body)?;
        let plain = self.told_of(status, body.as_slice())?;
        let body = with_feed(self.alloc, &body)?;
        let fed = self.told_of(status, body.as_slice())?;
        joined(plain, fed)
    }

    fn write_answer(&self, case: &str) -> Result<String, Wrong> {
        let answer: Answer = read_text(self.alloc, case)?;
        let (status, body) = encode_reply(self.alloc, &answer)?;
        let again = decode_reply(self.alloc, &self.request, status, body.as_slice());
        let mut told = String::new(self.alloc);
        write!(told, "{status} ")?;
        written(self.alloc, &mut told, &body, &answer, again)?;
        Ok(told)
    }

    fn told_of(&self, status: u16, body: &[u8]) -> Result<String, Wrong> {
        told(
            self.alloc,
            decode_reply(self.alloc, &self.request, status, body),
        )
    }
}

fn try_line(alloc: Global, case: &str) -> Result<String, Wrong> {
    let line = read_body(alloc, case)?;
    let plain = told(alloc, decode_item(alloc, line.as_slice()))?;
    let line = with_feed(alloc, &line)?;
    let fed = told(alloc, decode_item(alloc, line.as_slice()))?;
    joined(plain, fed)
}

fn write_item(alloc: Global, case: &str) -> Result<String, Wrong> {
    let item: WatchItem = read_text(alloc, case)?;
    let line = encode_item(alloc, &item)?;
    let again = decode_item(alloc, line.as_slice());
    let mut told = String::new(alloc);
    written(alloc, &mut told, &line, &item, again)?;
    Ok(told)
}

fn read_status(word: &str) -> Result<u16, Wrong> {
    match number_of(word.as_bytes(), 0, MOST_STATUS) {
        Some(status) => Ok(status as u16),
        None => Err(Wrong::Word),
    }
}

fn with_feed(alloc: Global, body: &Bytes) -> Result<Vec<u8>, Wrong> {
    let mut bytes = Vec::from_slice(alloc, body.as_slice())?;
    bytes.push(b'\n')?;
    Ok(bytes)
}
