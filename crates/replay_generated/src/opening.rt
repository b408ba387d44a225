ghost use Rattle.std.specs.Prelude.{◌≡◌, ◌≤◌, [], OnOk, IfOk, codes};
ghost use Rattle.generated_laws.specs.Laws.{AllTaken};
ghost use Rattle.replay_generated.specs.Taken.{CanMake};
ghost use Rattle.replay_generated.specs.Made.{IsOf, Makes, all_started, begun, script, starting};
ghost use Rattle.replay_world.specs.World.{Stands};
ghost use Rattle.world_model.specs.State.{starting_world};

use crate::making::Making;
use core_face::ProxyCore;
use etcd_types::{Bytes, NoMemory};
use replay_counts::Tally;
use replay_parts::one;
use replay_world::World;
use script_text::{Item, Line};
use std::alloc::Global;

/// So many members has the store.
const MEMBERS: u64 = 2;

impl<C: ProxyCore> Making<C> {
    /// The script of this number, whole.
    pub fn whole(alloc: Global, number: u64) -> Result<Making<C>, NoMemory>
        requires { number ≤ 20000 }
        ensures { IfOk result (λ making. IsOf making (script number)) }
    {
        let mut making = Making::open(alloc, number)?;
        making.start()?;
        making.settle()?;
        making.rounds(number)?;
        Ok(making)
    }

    /// The first line, which makes the world.
    fn open(alloc: Global, number: u64) -> Result<Making<C>, NoMemory>
        ensures { IfOk result (λ making. IsOf making (begun number)) }
    {
        let item = first_item(alloc)?;
        let items = one(alloc, item)?;
        let mut tally = Tally::new(alloc);
        tally.note_all(items.as_slice())?;
        let world = first_world(alloc)?;
        Ok(Making {
            alloc,
            world,
            tally,
            state: number,
        })
    }

    /// Three proxies start, and look at their clocks.
    fn start(&mut self) -> Result<(), NoMemory>
        requires { CanMake (AllTaken starting) self.old }
        ensures { OnOk result (Makes all_started self.old self.new) }
    {
        self.add(Line::Start { proxy: 1 })?;
        self.add(Line::Start { proxy: 2 })?;
        self.add(Line::Start { proxy: 3 })?;
        self.add(Line::Tick { proxy: 1 })?;
        self.add(Line::Tick { proxy: 2 })?;
        Ok(self.add(Line::Tick { proxy: 3 })?)
    }
}

fn first_item(alloc: Global) -> Result<Item, NoMemory>
    ensures { IfOk result (λ gained. gained ≡ Item.World 2 [] (codes "L/")) }
{
    Ok(Item::World {
        members: MEMBERS,
        namespace: Bytes::new(alloc),
        leasing: leasing(alloc)?,
    })
}

fn first_world<C: ProxyCore>(alloc: Global) -> Result<World<C>, NoMemory>
    ensures { IfOk result (λ world. Stands world (starting_world 2 [] (codes "L/"))) }
{
    let namespace = Bytes::new(alloc);
    let leasing = leasing(alloc)?;
    Ok(World::new(alloc, MEMBERS as u32, namespace, leasing)?)
}

/// The prefix of the keys by which proxies lease others.
fn leasing(alloc: Global) -> Result<Bytes, NoMemory>
    ensures { IfOk result (λ prefix. prefix ≡ codes "L/") }
{
    Ok(Bytes::from_slice(alloc, b"L/".as_slice())?)
}
