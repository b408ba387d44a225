ghost use Rattle.std.specs.Prelude.{◌≡◌};
ghost use Rattle.http_wire.specs.Sizes.{size_of};

use httparse::{Status, parse_chunk_size};

/// The size that one whole size line says.
#[tactic(auto, using(crate::proofs::SizeLines::size_found, crate::proofs::SizeLines::size_longer, crate::proofs::SizeLines::size_partial, crate::proofs::SizeLines::size_never))]
pub(crate) fn parse_size(line: &[u8]) -> Option<u64>
    ensures { result ≡ size_of line.now }
{
    match parse_chunk_size(line) {
        Ok(Status::Complete(found)) => {
            if found.0 != line.len() {
                return None;
            }
            Some(found.1)
        }
        _ => None,
    }
}
