use std::fmt;
use std::fmt::{Display, Formatter, Write};

/// Why a step of a hub gave no outcome.
#[derive(Clone, Copy, Debug, Drop, PartialEq, Eq)]
pub enum HubFault<F> {
    /// The hub has made 2^62 steps, its opening count included, and makes no more.
    Worn,
    /// The machine's own fault. The step was made.
    Machine(F),
}

impl<F: Display> Display for HubFault<F> {
    fn fmt<W: Write>(&self, f: &mut Formatter<W>) -> fmt::Result {
        match self {
            HubFault::Worn => f.write_str("the hub has made all the steps that it counts"),
            HubFault::Machine(fault) => fault.fmt(f),
        }
    }
}
