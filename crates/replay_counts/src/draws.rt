ghost use Rattle.std.specs.Prelude.{◌≡◌, ◌<◌, ◌/◌, ◌^◌, IfOk};
ghost use Rattle.proxy_model.specs.Asks.{range_ask};
ghost use Rattle.proxy_model.specs.Prefixes.{only};
ghost use Rattle.world_model.specs.Generated.{asking, chosen, drawn, key, value};

use etcd_types::{Bytes, DeleteAsk, KeyRange, NoMemory, PutAsk, RangeAsk, Request, Sort};
use script_text::Line;
use std::alloc::Global;

/// Those of Knuth's MMIX.
const MULTIPLIER: u64 = 6364136223846793005;

const INCREMENT: u64 = 1442695040888963407;

/// The generator's next state.
pub fn drawn(state: u64) -> u64
    ensures { result ≡ drawn state }
{
    state.wrapping_mul(MULTIPLIER).wrapping_add(INCREMENT)
}

/// What is asked in the round of this number.
pub fn asking(alloc: Global, state: u64, number: u64) -> Result<Line, NoMemory>
    ensures { IfOk result (λ line. line ≡ asking (state / 2 ^ 33) number) }
{
    let x = state / 0x2_0000_0000;
    let request = chosen(alloc, x / 24 % 4, key(alloc, x)?, number)?;
    Ok(Line::Ask {
        proxy: 1 + x % 3,
        ticket: number,
        request,
    })
}

/// Of four choices two are reads.
fn chosen(alloc: Global, choice: u64, key: Bytes, number: u64) -> Result<Request, NoMemory>
    ensures { IfOk result (λ request. request ≡ chosen choice key number) }
{
    if choice == 2 {
        Ok(Request::Put(PutAsk {
            key,
            value: value(alloc, number)?,
            lease: 0,
            prev_kv: false,
            ignore_lease: false,
        }))
    } else if choice == 3 {
        Ok(Request::Delete(DeleteAsk {
            range: only(alloc, key),
            prev_kv: false,
        }))
    } else {
        Ok(Request::Range(read_ask(only(alloc, key))))
    }
}

fn only(alloc: Global, key: Bytes) -> KeyRange
    ensures { result ≡ only key }
{
    KeyRange {
        key,
        end: Bytes::new(alloc),
    }
}

/// A read of all records of a range, as they are now.
fn read_ask(range: KeyRange) -> RangeAsk
    ensures { result ≡ range_ask range }
{
    RangeAsk {
        range,
        revision: 0,
        limit: 0,
        serializable: false,
        keys_only: false,
        count_only: false,
        sort: Sort {
            order: 0,
            target: 0,
            min_mod: 0,
            max_mod: 0,
            min_create: 0,
            max_create: 0,
        },
    }
}

fn key(alloc: Global, x: u64) -> Result<Bytes, NoMemory>
    ensures { IfOk result (λ bytes. bytes ≡ key x) }
{
    let digit = x / 3 % 8;
    let text = format!(in alloc; "k{digit}")?;
    Bytes::from_slice(alloc, text.as_bytes())
}

fn value(alloc: Global, number: u64) -> Result<Bytes, NoMemory>
    ensures { IfOk result (λ bytes. bytes ≡ value number) }
{
    let text = format!(in alloc; "v{number}")?;
    Bytes::from_slice(alloc, text.as_bytes())
}
