ghost use Rattle.std.specs.Prelude.{◌≡◌, false, OnOk, OnErr};
ghost use Rattle.store_model.specs.History.{newest};
ghost use Rattle.store_model.specs.Leases.{expired};
ghost use Rattle.store_model.specs.Members.{applied};
ghost use Rattle.store_model.specs.State.{State};
ghost use Rattle.store_world.specs.Store.{Stands};
ghost use Rattle.shop_model.specs.Shop.{taken};
ghost use Rattle.store_machine.specs.Holding.{HasRoom, is_wanting};

use etcd_types::NoMemory;
use store_model::StoreFault;
use store_world::Store;

/// Want of memory is told on. Any other fault is a refusal, which leaves the store as it was.
fn heed(fault: StoreFault) -> Result<(), NoMemory>
    ensures { OnOk result (is_wanting fault ≡ false) }
{
    match fault {
        StoreFault::NoMemory => Err(NoMemory),
        _ => Ok(()),
    }
}

/// Lets the lease expire, where there is such a lease.
pub(crate) fn expire(store: &mut Store, lease: u64) -> Result<(), NoMemory>
    requires room { HasRoom store.old }
    ensures room { OnOk result (HasRoom store.new) }
    ensures ok { OnOk result ((s : State) → Stands store.old s → Stands store.new (taken s (expired s lease))) }
    ensures err { OnErr result (store.new ≡ store.old) }
{
    match store.expire(lease) {
        Ok(()) => Ok(()),
        Err(fault) => {
            heed(fault)?;
            Ok(())
        }
    }
}

/// Lets the member apply the newest revision.
pub(crate) fn catch_up(store: &mut Store) -> Result<(), NoMemory>
    requires room { HasRoom store.old }
    ensures room { OnOk result (HasRoom store.new) }
    ensures ok { OnOk result ((s : State) → Stands store.old s → Stands store.new (taken s (applied s 1 (newest s.history)))) }
    ensures err { OnErr result (store.new ≡ store.old) }
{
    let newest = store.newest();
    match store.apply(1, newest) {
        Ok(()) => Ok(()),
        Err(fault) => {
            heed(fault)?;
            Ok(())
        }
    }
}
