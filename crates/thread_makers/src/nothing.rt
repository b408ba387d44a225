ghost use Rattle.std.specs.Prelude.{◌≡◌, IfErr, IsErr, None, ◌∷◌, []};
ghost use Rattle.outside.specs.Calls.{Adds, Handed, is_done};
ghost use Rattle.outside.specs.Faults.{HasCause, one_more};
ghost use Rattle.outside.specs.declared.parts.Part.{Part};

use outside::{Part, Spawner};
use std::marker::PhantomData;

/// What starts nothing: it refuses each part of these contexts and clients. Who follows a stream has it, since following starts nothing,
/// and so has who serves no such clients.
#[derive(Drop)]
pub struct Nothing<P, C> {
    faults: u64,
    of: PhantomData<(P, C)>,
}

impl<P, C> Nothing<P, C> {
    /// One that has refused none.
    pub fn new() -> Nothing<P, C>
        ensures fresh { result.faults ≡ 0 }
    {
        Nothing {
            faults: 0,
            of: PhantomData,
        }
    }
}

impl<P: Drop, C: Drop> Spawner for Nothing<P, C> {
    type Pass = P;

    type Conn = C;

    ghost use Rattle.std.specs.Prelude.{None};

    ghost handed = { λ s. None };

    ghost faults = { λ s. s.faults };

    fn start(&mut self, part: Part<P, C>) -> Result<(), Part<P, C>>
        ensures untold { Adds {A = Handed (Part P C)} None None (record { part = part; started = is_done result } ∷ []) }
        ensures back { IfErr result (λ refused. refused ≡ part) }
        ensures cause { HasCause self.old.faults self.new.faults result }
        ensures refused { IsErr result }
        ensures counted { self.new.faults ≡ one_more self.old.faults }
    {
        self.faults = self.faults.saturating_add(1);
        Err(part)
    }
}
