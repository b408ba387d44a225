ghost use Rattle.std.specs.Prelude.{◌≡◌, IfOk};
ghost use Rattle.std.specs.Option.{option_copied, option_to_list};
ghost use Rattle.read_model.specs.PlainRead.{shown};

use etcd_types::{Answer, Body, Header, Kv, List, NoMemory, Reply};
use known_asks::{Stage, Verdict};
use std::alloc::Global;

/// The reply to a plain read that shows this record, or that there is none.
pub fn shown(alloc: Global, header: Header, kv: Option<&Kv>) -> Result<Stage, NoMemory>
    ensures { IfOk result (λ stage. stage ≡ shown header (option_copied kv.entry)) }
{
    let kvs = as_list(alloc, kv)?;
    let body = Body::Range {
        count: kvs.len() as u64,
        more: false,
        kvs,
    };
    Ok(Stage::Replied(Verdict::Said(Answer::Done(Reply { header, body }))))
}

fn as_list(alloc: Global, kv: Option<&Kv>) -> Result<List<Kv>, NoMemory>
    ensures { IfOk result (λ kvs. kvs ≡ option_to_list (option_copied kv.entry)) }
{
    let mut kvs = List::new(alloc);
    if let Some(kv) = kv {
        kvs.push(kv.copy(alloc)?)?;
    }
    Ok(kvs)
}
