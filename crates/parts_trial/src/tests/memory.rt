use etcd_types::{Bytes, List, Request};
use outside::{
    AnswerEnd, CallKind, Clock, Draw, Failed, Host, Link, LinkFault, MemClock, MemDraw, MemHost,
    MemLink, MemSink, MemSource, MemSpawner, Part, ReadMark, Reading, RequestKind, Sink, Source,
    Spawner, TicketRange, Writing, write_whole,
};
use std::alloc::Global;
use std::io;
use std::test::Fail;

/// Reads to the end, by a room of four bytes, and counts the failures on the way.
fn drain<S: Source>(alloc: Global, source: &mut S) -> Result<(Vec<u8>, u64), Fail> {
    let mut bytes = Vec::new(alloc);
    let mut failures = 0u64;
    for _ in 0..100 {
        let mut room = [0u8; 4];
        match source.read(&mut room) {
            Ok(0) => break,
            Ok(count) => bytes.extend_from_slice(&room[..count])?,
            Err(Failed) => failures = failures.saturating_add(1),
        }
    }
    Ok((bytes, failures))
}

#[test]
fn a_memory_source_gives_pieces_and_fails_where_told(rt: HostRuntime) -> Result<(), Fail> {
    let alloc = rt.alloc();
    for (piece, failing) in [(0, 0), (1, 1), (3, 2), (9, 3)] {
        let failing = vec![in alloc; failing]?;
        let mut source = MemSource::new(Vec::from_slice(alloc, b"seven..")?, piece, failing);
        let (bytes, failures) = drain(alloc, &mut source)?;
        assert_eq!(rt;
            bytes.as_slice(),
            b"seven..".as_slice(),
            "in pieces of {piece}"
        );
        assert_eq!(rt; failures, u64::from(piece != 0), "in pieces of {piece}");
    }
    Ok(())
}

#[test]
fn a_memory_sink_takes_pieces_and_fails_where_told(rt: HostRuntime) -> Result<(), Fail> {
    let alloc = rt.alloc();
    let mut sink = MemSink::new(alloc, 3, vec![in alloc; 2]?);
    assert_eq!(rt; write_whole(&mut sink, b"seven.."), Err(Failed));
    assert_eq!(rt; sink.as_slice(), b"sev".as_slice());
    assert_eq!(rt; write_whole(&mut sink, b"en.."), Ok(()));
    assert_eq!(rt; sink.as_slice(), b"seven..".as_slice());
    assert_eq!(rt; sink.calls(), 4);
    Ok(())
}

#[test]
fn the_clock_in_memory_stands_until_it_is_moved(rt: HostRuntime) -> Result<(), Fail> {
    let mut clock = MemClock::new(5);
    assert!(rt; clock.now() == 5 && clock.now() == 5);
    clock.advance(2);
    clock.pause(3);
    assert!(rt; clock.now() == 10 && clock.readings == 3);
    Ok(())
}

#[test]
fn the_draw_in_memory_gives_its_words_and_then_zeros(rt: HostRuntime) -> Result<(), Fail> {
    let mut draw = MemDraw::new(Vec::from_slice(rt.alloc(), &[7, 0, 9])?);
    assert!(rt; [draw.word(), draw.word(), draw.word()] == [7, 0, 9] && !draw.dry);
    assert!(rt; draw.word() == 0 && draw.word() == 0 && draw.at == 3 && draw.dry);
    Ok(())
}

/// A stream whose first calls are interrupted, so many of them.
#[derive(Drop)]
struct Interrupted<S> {
    left: u32,
    stream: S,
}

impl<S> Interrupted<S> {
    fn pass(&mut self) -> io::Result<()> {
        if self.left == 0 {
            return Ok(());
        }
        self.left -= 1;
        Err(io::Error::from(io::ErrorKind::Interrupted))
    }
}

impl<S: io::Read> io::Read for Interrupted<S> {
    fn read(&mut self, room: &mut [u8]) -> io::Result<usize> {
        self.pass()?;
        self.stream.read(room)
    }
}

impl<S: io::Write> io::Write for Interrupted<S> {
    fn write(&mut self, piece: &[u8]) -> io::Result<usize> {
        self.pass()?;
        self.stream.write(piece)
    }

    fn flush(&mut self) -> io::Result<()> {
        self.stream.flush()
    }
}

#[test]
fn a_reader_is_a_source(rt: HostRuntime) -> Result<(), Fail> {
    let reader = Interrupted {
        left: 3,
        stream: b"seven..".as_slice(),
    };
    let (bytes, failures) = drain(rt.alloc(), &mut Reading::new(reader))?;
    assert_eq!(rt; bytes.as_slice(), b"seven..".as_slice());
    assert_eq!(rt; failures, 0);
    Ok(())
}

#[test]
fn a_writer_is_a_sink(rt: HostRuntime) -> Result<(), Fail> {
    let writer = Interrupted {
        left: 3,
        stream: rt.stdout(),
    };
    assert_eq!(rt;
        write_whole(&mut Writing::new(writer), b"seven..\n"),
        Ok(())
    );
    Ok(())
}

fn list_of(alloc: Global, items: &[&[u8]]) -> Result<List<Bytes>, Fail> {
    let mut list = List::new(alloc);
    for item in items {
        list.push(Bytes::from_slice(alloc, item)?)?;
    }
    Ok(list)
}

#[test]
fn a_link_over_memory_answers_in_turn(rt: HostRuntime) -> Result<(), Fail> {
    let alloc = rt.alloc();
    let replies = list_of(alloc, &[b"one", b"two", b"three"])?;
    let mut link = MemLink::new(alloc, replies, 2, vec![in alloc; 2]?);
    let mut first = link.begin(1, CallKind::Reads, b"a")?;
    let (bytes, failures) = drain(alloc, &mut first)?;
    assert_eq!(rt; bytes.as_slice(), b"one".as_slice());
    assert_eq!(rt; failures, 0);
    link.end(first, AnswerEnd::Whole);
    assert!(rt;
        matches!(
            link.begin(1, CallKind::Writes, b"b"),
            Err(LinkFault::Failed)
        )
    );
    let mut stream = link.begin(2, CallKind::Watches(7), b"c")?;
    let mut room = [0u8; 8];
    stream.mark(ReadMark::Message);
    assert!(rt; stream.check().is_ok() && stream.read(&mut room) == Ok(2));
    assert_eq!(rt; &room[..2], b"th".as_slice());
    link.forget(7);
    link.end(stream, AnswerEnd::Broken);
    assert!(rt; matches!(link.begin(1, CallKind::Asks, b"d"), Err(LinkFault::Failed)));
    Ok(())
}

#[test]
fn a_request_has_the_kind_of_its_variant(rt: HostRuntime) -> Result<(), Fail> {
    assert_eq!(rt; RequestKind::of(&Request::Leases), RequestKind::Leases);
    let grant = Request::Grant { ttl: 5, lease: 9 };
    assert_eq!(rt; RequestKind::of(&grant), RequestKind::Grant);
    let compaction = Request::Compact {
        revision: 5,
        physical: true,
    };
    assert_eq!(rt; RequestKind::of(&compaction), RequestKind::Compact);
    Ok(())
}

#[test]
fn a_host_over_memory_accepts_in_turn(rt: HostRuntime) -> Result<(), Fail> {
    let alloc = rt.alloc();
    let address = Bytes::from_slice(alloc, b"h:1")?;
    let mut host = MemHost::new(alloc, vec![in alloc; 5u64, 6]?, vec![in alloc; 3]?);
    assert!(rt; host.listen(&address).is_ok() && host.accept() == Ok(Some(5)));
    assert!(rt; host.accept() == Err(Failed) && host.accept() == Ok(Some(6)));
    assert!(rt; host.accept() == Err(Failed));
    let mut host = host.stopping();
    assert!(rt; host.accept() == Ok(None));
    Ok(())
}

#[test]
fn a_spawner_over_memory_keeps_what_it_starts(rt: HostRuntime) -> Result<(), Fail> {
    let alloc = rt.alloc();
    let mut spawner: MemSpawner<u64, u64> = MemSpawner::new(alloc, vec![in alloc; 2]?);
    let tickets = TicketRange { next: 1, end: 5 };
    assert!(rt; spawner.start(Part::Worker(7)).is_ok());
    assert!(rt; matches!(spawner.start(Part::Ticker(8)), Err(Part::Ticker(8))));
    assert!(rt; spawner.start(Part::Connection(9, 3, tickets)).is_ok());
    assert!(rt; spawner.parts().len() == 2);
    assert!(rt; matches!(spawner.take(), Some(Part::Connection(9, 3, _))));
    assert!(rt; matches!(spawner.take(), Some(Part::Worker(7))));
    Ok(())
}
