// The rule of a hub's table, and the names of the steps on it.
use crate::view::{Opening, Stowed, View};
use atomic_table::{Join, Play, Split, TableRule};
use outside::Machine;
use std::marker::PhantomData;

pub struct Turns<M> {
    machine: PhantomData<M>,
}

impl<M: Machine> TableRule<
    Stowed<M, M::Event, M::Outcome, M::Fault>,
    View<M, M::Event, M::Outcome, M::Fault>,
    Opening<M>,
> for Turns<M> {
    ghost use Rattle.turn_hub.specs.Rule.{Kept};
    ghost use Rattle.turn_hub.specs.Views.{starting};

    ghost holds = { λ key. Kept M.steps key.machine.value key.base };

    ghost first = { λ key. starting key.machine.value key.base };
}

// Compare-exchanges the turn from 0 to 1, and takes the slot with it.
pub struct Takes;

impl<M, E, O, F> Play<Stowed<M, E, O, F>, View<M, E, O, F>> for Takes {
    ghost use Rattle.turn_hub.specs.Kinds.{takes_turn};

    ghost then = { takes_turn };
}

// Loads the count, with the turn or without it, and so sees the whole history.
pub struct Looks<M> {
    machine: PhantomData<M>,
}

impl<M: Machine> Play<
    Stowed<M, M::Event, M::Outcome, M::Fault>,
    View<M, M::Event, M::Outcome, M::Fault>,
> for Looks<M> {
    ghost use Rattle.turn_hub.specs.Kinds.{looks};

    ghost then = { looks M.steps };
}

// Loads the count, and sees no more than before.
pub struct Recalls;

impl<M, E, O, F> Play<Stowed<M, E, O, F>, View<M, E, O, F>> for Recalls {
    ghost use Rattle.turn_hub.specs.Kinds.{recalls};

    ghost then = { recalls };
}

// Adds one to the count, with the machine out.
pub struct Adds<M> {
    machine: PhantomData<M>,
}

impl<M: Machine> Play<
    Stowed<M, M::Event, M::Outcome, M::Fault>,
    View<M, M::Event, M::Outcome, M::Fault>,
> for Adds<M> {
    ghost use Rattle.turn_hub.specs.Kinds.{adds};

    ghost then = { adds M.steps };
}

// Stores 0 in the turn, and gives the slot back with it.
pub struct Gives;

impl<M, E, O, F> Play<Stowed<M, E, O, F>, View<M, E, O, F>> for Gives {
    ghost use Rattle.turn_hub.specs.Kinds.{gives_back};

    ghost then = { gives_back };
}

// Splits a seat.
pub struct Forks;

impl<M, E, O, F> Split<View<M, E, O, F>> for Forks {
    ghost use Rattle.turn_hub.specs.Views.{newcomer};

    ghost left = { λ v. v };

    ghost right = { newcomer };
}

// Joins two seats.
pub struct Meets;

impl<M, E, O, F> Join<View<M, E, O, F>> for Meets {
    ghost use Rattle.turn_hub.specs.Views.{joined, spent};

    ghost both = { joined };

    ghost spent = { spent };
}
