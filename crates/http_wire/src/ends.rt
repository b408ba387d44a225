ghost use Rattle.std.specs.Prelude.{◌≡◌, ◌≤◌, length, IfOk, IfErr, IfSome, IsErrOf};
ghost use Rattle.std.specs.Io.KnownBytes.{Keeps};
ghost use Rattle.outside.specs.Faults.{Rose};
ghost use Rattle.http_wire.specs.Ends.{bounded};
ghost use Rattle.http_wire.specs.Held.{held, ahead, IsOutside};
ghost use Rattle.http_wire.specs.Places.{length_from, EndsWithin, Looks};

use crate::buffer::Buffer;
use crate::fault::WireFault;
use crate::limits::HEAD_LIMIT;
use crate::scan::{Ending, Place, Scan, scan_piece};
use outside::Source;

/// What is known after a look at the bytes that are held.
#[derive(Clone, Copy, Debug, PartialEq, Eq)]
enum Look {
    Ends(Ending),
    /// More bytes are needed, of which the first stands there.
    On(Place),
}

/// Looks at what is held from a place on.
fn look_on(held: &[u8], seen: usize, place: Place) -> Look
    requires { seen ≤ length held.now }
    ensures { Looks held.now seen place result }
{
    match scan_piece(&held[seen..], place) {
        Scan::Found(count) if seen + count <= HEAD_LIMIT => Look::Ends(Ending::At(seen + count)),
        Scan::Found(_) => Look::Ends(Ending::Over),
        Scan::More(_) if held.len() > HEAD_LIMIT => Look::Ends(Ending::Over),
        Scan::More(next) => Look::On(next),
    }
}

/// Reads until it is known where the bytes end. Each byte is looked at once.
pub(crate) fn find_end<S: Source>(
    buffer: &mut Buffer,
    source: &mut S,
    first: Place,
) -> Result<Ending, WireFault>
    ensures ahead { Keeps (ahead (S.left source.old) buffer.old) (ahead (S.left source.new) buffer.new) }
    ensures found { IfOk result (λ ending. IfSome (ahead (S.left source.new) buffer.new) (λ all.
        bounded all (length_from first all) ≡ ending)) }
    ensures within { IfOk result (EndsWithin (held buffer.new) (S.left source.new)) }
    ensures fault { IfErr result IsOutside }
    ensures cause { IsErrOf result WireFault.ReadFault → Rose (S.faults source.old) (S.faults source.new) }
    ensures kept { S.faults source.old ≤ S.faults source.new }
{
    let mut place = first;
    let mut seen = 0;
    loop {
        match look_on(buffer.bytes(), seen, place) {
            Look::Ends(ending) => return Ok(ending),
            Look::On(next) => place = next,
        }
        seen = buffer.bytes().len();
        if buffer.fill(source)? == 0 {
            return Ok(Ending::Cut);
        }
    }
}
