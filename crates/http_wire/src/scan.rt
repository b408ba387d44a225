ghost use Rattle.std.specs.Prelude.{◌≡◌, [], ◌∷◌, IsTrue, ◌↔◌};
ghost use Rattle.httparse.specs.Ascii.{carriage_return};
ghost use Rattle.http_wire.specs.Bodies.{is_unfinished};
ghost use Rattle.http_wire.specs.Places.{Scans, Feeds, IsBehind};

use memchr::memchr;

const LINE_FEED: u8 = b'\n';

/// Where a head, a trailer or a size line ends.
#[derive(Clone, Copy, Debug, PartialEq, Eq)]
pub(crate) enum Ending {
    /// After so many bytes.
    At(usize),
    /// Beyond the limit.
    Over,
    /// Nowhere before the input's end.
    Cut,
}

/// What came before the next byte, as far as the end turns on it.
#[derive(Clone, Copy, Debug, PartialEq, Eq)]
pub(crate) enum Place {
    /// In a size line, whose first line feed ends it.
    Line,
    /// In a line of a head.
    Inside,
    /// After a line feed.
    Start,
    /// After a line feed and a carriage return.
    Return,
}

/// What was found in a piece.
#[derive(Clone, Copy, Debug, PartialEq, Eq)]
pub(crate) enum Scan {
    /// The end, after so many bytes.
    Found(usize),
    /// No end; the next piece begins there.
    More(Place),
}

/// What the next line feed comes to.
#[derive(Clone, Copy, Debug, PartialEq, Eq)]
enum Feed {
    /// It is the end, after so many bytes.
    Last(usize),
    /// After so many bytes the next line begins.
    Ended(usize),
    /// None comes; the next piece begins there.
    Open(Place),
}

/// Whether a line has just a carriage return before its line feed.
fn is_return(line: &[u8]) -> bool
    ensures { IsTrue result ↔ (line.now ≡ carriage_return ∷ []) }
{
    line == b"\r".as_slice()
}

/// The place behind bytes of a line, without its line feed.
fn behind(line: &[u8], place: Place) -> Place
    requires { IsTrue (is_unfinished line.now) }
    ensures { IsBehind line.now place result }
{
    if line.is_empty() {
        return place;
    }
    match place {
        Place::Line => Place::Line,
        Place::Start => {
            if is_return(line) {
                Place::Return
            } else {
                Place::Inside
            }
        }
        _ => Place::Inside,
    }
}

/// Looks for the next line feed.
fn next_feed(bytes: &[u8], place: Place) -> Feed
    ensures { Feeds place bytes.now result }
{
    let Some(count) = memchr(LINE_FEED, bytes) else {
        return Feed::Open(behind(bytes, place));
    };
    match behind(&bytes[..count], place) {
        Place::Inside => Feed::Ended(count + 1),
        _ => Feed::Last(count + 1),
    }
}

/// Looks for the end in the next piece.
pub(crate) fn scan_piece(bytes: &[u8], first: Place) -> Scan
    ensures { Scans first bytes.now result }
{
    let mut place = first;
    let mut seen = 0;
    loop {
        match next_feed(&bytes[seen..], place) {
            Feed::Last(count) => return Scan::Found(seen + count),
            Feed::Ended(count) => {
                place = Place::Start;
                seen += count;
            }
            Feed::Open(next) => return Scan::More(next),
        }
    }
}
