ghost use Rattle.std.specs.Prelude.{◌≡◌, IfOk};
ghost use Rattle.proxy_model.specs.SeveralKeys.{written_ranges};
ghost use Rattle.wait_model.specs.Asked.{new_write};

use etcd_types::{KeyRange, List, NoMemory, Request};
use lease_txn::written_ranges;
use std::alloc::Global;
use wait_model::{Write, WriteStage};

/// A write that waits for its turn.
pub fn new_write(alloc: Global, ticket: u64, request: Request) -> Result<Write, NoMemory>
    ensures { IfOk result (λ write. write ≡ new_write ticket request) }
{
    let ranges = ranges_of(alloc, &request)?;
    Ok(Write {
        ticket,
        request,
        ranges,
        stage: WriteStage::Waiting,
    })
}

fn ranges_of(alloc: Global, request: &Request) -> Result<List<KeyRange>, NoMemory>
    ensures { IfOk result (λ ranges. ranges ≡ written_ranges request.now) }
{
    let mut ranges = List::new(alloc);
    for range in written_ranges(alloc, request)? {
        ranges.push(range)?;
    }
    Ok(ranges)
}
