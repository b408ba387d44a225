use etcd_types::Header;
use std::marker::Model;

/// What a step on reads is told beside the state.
#[derive(Debug, Drop)]
pub struct Moment {
    /// The clock's reading, in milliseconds.
    pub now: u64,
    /// The number of the live session.
    pub session: Option<u64>,
    /// Whether the leasing stream stands created.
    pub created: bool,
    /// The one of the highest revision that was delivered.
    pub header: Header,
}

impl Model for Moment {
    ghost use Rattle.read_model.specs.State.{Moment as Value'};

    ghost Value = { Value' };

    ghost view = { λ m. record { now = m.now; session = m.session; created = m.created; header = m.header } };
}
