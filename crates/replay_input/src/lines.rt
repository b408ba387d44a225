ghost use Rattle.std.specs.Prelude.{◌≡◌, ◌+◌, ◌<◌, ◌^◌, ◌∷◌, [], IfOk};
ghost use Rattle.replay_world.specs.World.{Stands};
ghost use Rattle.world_model.specs.State.{World as Model};
ghost use Rattle.world_model.specs.Transcript.{begun, taken};
ghost use Rattle.replay_input.specs.Script.{Begins, GivesLater, IsWorld};

use crate::refused::NotTaken;
use core_face::ProxyCore;
use etcd_types::{List, NoMemory};
use replay_world::World;
use script_text::{Item, Line};
use std::alloc::Global;
use world_model::{LineRefusal, WorldFault};

/// Makes the world of the first line, and says what it gained.
pub(crate) fn begin<C: ProxyCore>(
    alloc: Global,
    line: Line,
) -> Result<(World<C>, List<Item>), NotTaken>
    requires { IsWorld line }
    ensures { Begins result (begun line) }
{
    let Line::World {
        members,
        namespace,
        leasing,
    } = line
    else {
        return Err(NotTaken::from(LineRefusal::BadLine { place: 1 }));
    };
    let world = World::new(
        alloc,
        members as u32,
        namespace.copy(alloc)?,
        leasing.copy(alloc)?,
    )?;
    let item = Item::World {
        members,
        namespace,
        leasing,
    };
    Ok((world, one(alloc, item)?))
}

/// Takes a line behind the first, and says what it gained. Only the first one makes a world.
pub(crate) fn later<C: ProxyCore>(
    world: &mut World<C>,
    number: u64,
    line: Line,
) -> Result<List<Item>, NotTaken>
    requires number { number ≡ world.old.lines + 2 }
    requires few { world.old.lines < 2 ^ 60 }
    ensures { (w : Model) → Stands world.old w → GivesLater world.new result (taken w line) }
{
    match line {
        Line::World { .. } => Err(NotTaken::from(LineRefusal::BadLine { place: 1 })),
        line => match world.step(number, line) {
            Ok(items) => Ok(items),
            Err(WorldFault::NoMemory) => Err(NotTaken::NoMemory),
            Err(fault) => Err(NotTaken::from(LineRefusal::World(fault))),
        },
    }
}

fn one(alloc: Global, item: Item) -> Result<List<Item>, NoMemory>
    ensures { IfOk result (λ items. items ≡ item ∷ []) }
{
    let mut items = List::new(alloc);
    items.push(item)?;
    Ok(items)
}
