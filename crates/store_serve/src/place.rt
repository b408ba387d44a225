ghost use Rattle.std.specs.Prelude.{◌≡◌};
ghost use Rattle.std.specs.Arc.{arc_value};

use std::alloc::Global;
use std::sync::Arc;
use store_machine::StoreMachine;
use turn_hub::{Hub, Pass};

/// What a connection's part carries: the hub of the store, and a pass of it.
#[derive(Drop)]
pub struct StorePlace {
    pub hub: Arc<Hub<StoreMachine>, Global>,
    pub pass: Pass<StoreMachine>,
    ghost mine: { pass.hub ≡ arc_value hub },
}
