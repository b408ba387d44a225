ghost use Rattle.std.specs.Prelude.{◌≡◌};
ghost use Rattle.std.specs.Arc.{arc_value};

use std::alloc::Global;
use std::sync::Arc;
use store_serve::{StoreMachine, StorePlace};
use turn_hub::{Hub, Pass};

/// Which passes go with a hub.
pub trait Admits<P> {
    ghost admits: { Self → P → Type 0 };

    ghost only: { (hub : Self) (pass : P) → IsProp (admits hub pass) };
}

impl Admits<Pass<StoreMachine>> for Hub<StoreMachine> {
    ghost use Rattle.std.specs.Prelude.{◌≡◌};
    ghost use Rattle.std.specs.Coded.{codes};
    ghost use Rattle.store_machine.specs.contracts.machine.StoreMachine as machine;

    ghost admits = { λ hub pass. pass.hub ≡ hub };

    ghost only = { λ hub pass. Prim.hlevel (codes, machine.the_row.coded) };
}

/// A place, in terms of plain types: only so is it shown that it may cross threads.
#[derive(Drop)]
pub struct CarriedOf<H: Admits<P>, P> {
    hub: Arc<H, Global>,
    pass: P,
    ghost admitted: { H.admits (arc_value hub) pass } by { H.only (arc_value hub) pass },
}

/// A place on its way to another thread.
pub(crate) type Carried = CarriedOf<Hub<StoreMachine>, Pass<StoreMachine>>;

impl Carried {
    pub(crate) fn pack(place: StorePlace) -> Carried
        ensures hub { result.hub ≡ place.hub }
        ensures pass { result.pass ≡ place.pass }
    {
        let StorePlace { hub, pass } = place;
        CarriedOf { hub, pass }
    }

    pub(crate) fn unpack(self) -> StorePlace
        ensures hub { result.hub ≡ self.hub }
        ensures pass { result.pass ≡ self.pass }
    {
        let CarriedOf { hub, pass } = self;
        StorePlace { hub, pass }
    }
}
