// What `store ADDRESS` does.
ghost use Rattle.std.specs.Prelude.{◌≡◌, ◌≢◌, IfOk};
ghost use Rattle.shop_service.specs.Service.{seen};
ghost use Rattle.etcd_proxy.specs.Store.{Stores, store_line};

use crate::start::{end_with, want};
use etcd_types::{Bytes, NoMemory};
use outside::{Host, Sink, Spawner};
use shop_service::serve_shop;
use std::alloc::Global;
use std::sync::Wait;
use store_serve::StorePlace;

/// Serves a store with nothing in it at this address, and answers the exit status.
pub(crate) fn store<R: Wait, E: Sink, H: Host, Q: Spawner<Pass = StorePlace, Conn = H::Conn>>(
    rt: &R,
    alloc: Global,
    address: &[u8],
    errors: &mut E,
    host: &mut H,
    shops: &mut Q,
) -> u8
    ensures stores { Stores address.now (E.written errors.old) (E.written errors.new) (E.faults errors.old) (E.faults errors.new)
        (seen (H.made host.old) (H.faults host.old) (Q.handed shops.old)) (seen (H.made host.new) (H.faults host.new) (Q.handed shops.new)) result }
    ensures no_usage { result ≢ 2 }
    ensures no_read_fault { result ≢ 3 }
    ensures no_write_fault { result ≢ 4 }
{
    let Ok(listen) = Bytes::from_slice(alloc, address) else {
        return want(errors);
    };
    let Ok(line) = store_line(alloc, address) else {
        return want(errors);
    };
    let end = serve_shop(rt, alloc, &listen, host, shops, line.as_slice(), errors);
    end_with(errors, end)
}

/// What is told once it listens.
fn store_line(alloc: Global, address: &[u8]) -> Result<Vec<u8>, NoMemory>
    ensures { IfOk result (λ line. line.items ≡ store_line address.now) }
{
    let mut line = Vec::from_slice(alloc, b"serving ")?;
    line.extend_from_slice(address)?;
    line.extend_from_slice(b"\n")?;
    Ok(line)
}
