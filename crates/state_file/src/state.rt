//! The numbers of the sessions that a process begins, in a file where one is named, so that the next process ends those that it left.
ghost use Rattle.std.specs.Prelude.{◌≡◌, ◌≤◌, ◌++◌, [], true, false, IfSome, OnOk};
ghost use Rattle.state_file.specs.Numbers.{IsKnown, IsAmong, with_room, with_begun, without};

use socket_limits::TRIES;
use std::alloc::Global;
use std::fs::{File, Files};
use std::io::{ErrorKind, Read, Seek, SeekFrom, Write};
use std::sync::{Mutex, Wait};
use std::{io, mem, str};

/// A line of the file: the digits of a session's number, and a line feed.
const LINE: usize = 20;

/// The numbers of sessions: all have as many digits.
const FIRST: u64 = 1 << 62;

const LAST: u64 = (1 << 63) - 1;

/// So many numbers are kept at most. The oldest are those of sessions that have long ended.
const MOST: usize = 128;

/// A file that has more bytes isn't one of these.
const LONGEST: usize = 4_096;

/// What is known of sessions.
#[derive(Drop)]
struct Known {
    alloc: Global,
    file: Option<File>,
    // why there is no file though one is named
    fault: Option<io::Error>,
    // sessions that are to be ended, and those that this process began
    left: Vec<u64>,
    begun: Vec<u64>,
    // whether no further one may be begun
    is_closed: bool,
}

/// The sessions that a process began, and those that processes before it left.
#[derive(Drop)]
pub struct Sessions {
    known: Mutex<Known>,
}

/// Reads until the room is full or the file ends, and says how many bytes came.
fn fill(file: &mut File, room: &mut [u8]) -> io::Result<usize> {
    let mut count = 0;
    for _ in 0..TRIES {
        if count >= room.len() {
            break;
        }
        match file.read(&mut room[count..]) {
            Ok(0) => break,
            Ok(more) => count = count.saturating_add(more),
            Err(error) if error.kind() == ErrorKind::Interrupted => {}
            Err(error) => return Err(error),
        }
    }
    Ok(count)
}

/// The number of a session that a line is.
fn number_of(line: &[u8]) -> Option<u64>
    ensures first { IfSome result (λ number. FIRST ≤ number) }
    ensures last { IfSome result (λ number. number ≤ LAST) }
{
    let digits = line.strip_suffix(b"\n".as_slice())?;
    let number = str::from_utf8(digits).ok()?.parse::<u64>().ok()?;
    (FIRST..=LAST).contains(&number).then_some(number)
}

/// The numbers in a file. The last line may be cut short, since a machine may fail while it is written.
fn numbers_in(alloc: Global, bytes: &[u8]) -> io::Result<Vec<u64>> {
    let mut numbers = Vec::new(alloc);
    for line in bytes.chunks(LINE) {
        match number_of(line) {
            Some(number) => numbers.push(number)?,
            None if line.len() < LINE && line.iter().all(|byte| byte.is_ascii_digit()) => {}
            None => {
                return Err(io::Error::new(ErrorKind::InvalidData, "it isn't a file of sessions"));
            }
        }
    }
    Ok(numbers)
}

/// The file of that path, which no other process has, and the numbers in it.
fn opened<R: Files<File = File>>(
    rt: &R,
    alloc: Global,
    path: &str,
) -> io::Result<(File, Vec<u64>)> {
    let mut file = File::options()
        .read(true)
        .write(true)
        .create(true)
        .open(rt, path)?;
    if !file.metadata()?.is_file() {
        return Err(io::Error::new(ErrorKind::InvalidInput, "it isn't a file"));
    }
    if file.try_lock().is_err() {
        return Err(io::Error::new(ErrorKind::WouldBlock, "another process has it"));
    }
    let mut room = [0u8; LONGEST];
    let count = fill(&mut file, &mut room)?;
    if count >= LONGEST {
        return Err(io::Error::new(ErrorKind::InvalidData, "it isn't a file of sessions"));
    }
    let numbers = numbers_in(alloc, &room[..count])?;
    Ok((file, numbers))
}

impl Known {
    // None, and no file.
    fn new(alloc: Global) -> Known
        ensures none { (result.left.items ≡ []) × (result.begun.items ≡ []) × (result.is_closed ≡ false) }
    {
        Known {
            alloc,
            file: None,
            fault: None,
            left: Vec::new(alloc),
            begun: Vec::new(alloc),
            is_closed: false,
        }
    }

    // The lines of all numbers.
    fn text(&self) -> io::Result<Vec<u8>> {
        let mut text = Vec::new(self.alloc);
        for number in self.left.iter().chain(self.begun.iter()) {
            let line = format!(in self.alloc; "{number}\n")?;
            text.extend_from_slice(line.as_bytes())?;
        }
        Ok(text)
    }

    // Has the file hold what is known. Bytes are written over those of before, so that it always holds each number that is to stay.
    fn save(&mut self) -> io::Result<()>
        ensures stays { IsKnown self.old.left.items self.old.begun.items self.old.is_closed self.new }
    {
        let text = self.text()?;
        let Some(file) = &mut self.file else {
            return Ok(());
        };
        file.seek(SeekFrom::Start(0))?;
        file.write_all(text.as_slice())?;
        file.set_len(text.len() as u64)?;
        file.sync_data()
    }

    // Leaves room for one number more: the oldest is dropped where there are as many as are kept.
    fn make_room(&mut self)
        ensures stays { self.new.is_closed ≡ self.old.is_closed }
        ensures room { self.new.left.items ++ self.new.begun.items ≡ with_room (self.old.left.items ++ self.old.begun.items) }
    {
        if self.left.len().saturating_add(self.begun.len()) < MOST {
            return;
        }
        if self.left.is_empty() {
            self.begun.remove(0);
        } else {
            self.left.remove(0);
        }
    }

    // A session of this number is about to be begun: the file holds its number behind this. It fails where none may be begun any more.
    fn begin(&mut self, number: u64) -> io::Result<()>
        ensures open { OnOk result (self.old.is_closed ≡ false) }
        ensures kept { OnOk result (IsAmong number self.new.begun.items) }
        ensures others { OnOk result (self.new.left.items ++ self.new.begun.items ≡ with_begun number self.old.left.items self.old.begun.items) }
        ensures stays { self.new.is_closed ≡ self.old.is_closed }
    {
        if self.is_closed {
            return Err(io::Error::from(ErrorKind::ConnectionAborted));
        }
        if self.begun.contains(&number) {
            return Ok(());
        }
        self.make_room();
        self.begun.push(number)?;
        let saved = self.save();
        if saved.is_err() {
            self.begun.pop();
        }
        saved
    }

    // Lets no further one be begun, and has all ended.
    fn close(&mut self)
        ensures closed { self.new.is_closed ≡ true }
        ensures begun { self.new.begun.items ≡ [] }
    {
        self.is_closed = true;
        let none = Vec::new(self.alloc);
        let begun = mem::replace(&mut self.begun, none);
        for number in begun {
            // one that finds no memory ends by itself
            let _ = self.left.push(number);
        }
    }

    // A session has ended.
    fn end(&mut self, number: u64)
        ensures stays { IsKnown (without number self.old.left.items) self.old.begun.items self.old.is_closed self.new }
    {
        self.left.retain(|other| *other != number);
        // where it can't be written, the number is found again and its session ended once more
        let _ = self.save();
    }
}

impl Sessions {
    /// None, and no file.
    pub fn new(alloc: Global) -> Sessions {
        Sessions {
            known: Mutex::new(Known::new(alloc)),
        }
    }

    /// Keeps them in the file of that path from now on, and has those ended whose numbers it holds. Where that can't be, `check` says why.
    pub fn open<R: Files<File = File> + Wait>(&self, rt: &R, path: &str) {
        let mut known = self.known.lock(rt);
        match opened(rt, known.alloc, path) {
            Ok((file, left)) => {
                known.file = Some(file);
                known.left = left;
            }
            Err(error) => known.fault = Some(error),
        }
    }

    /// Whether they are kept as was asked for. Why they aren't is said once.
    pub fn check<R: Wait>(&self, rt: &R) -> io::Result<()> {
        match self.known.lock(rt).fault.take() {
            Some(error) => Err(error),
            None => Ok(()),
        }
    }

    /// A session of this number is about to be begun: the file holds its number behind this.
    pub fn begin<R: Wait>(&self, rt: &R, number: u64) -> io::Result<()> {
        self.known.lock(rt).begin(number)
    }

    /// Lets no further one be begun, and has all ended.
    pub fn close<R: Wait>(&self, rt: &R) {
        self.known.lock(rt).close();
    }

    /// The number of a session that is to be ended, the last one first.
    pub fn left<R: Wait>(&self, rt: &R) -> Option<u64> {
        self.known.lock(rt).left.last().copied()
    }

    /// A session has ended.
    pub fn ended<R: Wait>(&self, rt: &R, number: u64) {
        self.known.lock(rt).end(number);
    }
}
