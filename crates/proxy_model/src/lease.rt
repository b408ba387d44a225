use etcd_types::Kv;

/// What a proxy has of a key that it owns.
#[derive(Debug, PartialEq, Eq, Drop)]
pub struct Entry {
    /// The create revision of its ownership key.
    pub create: u64,
    /// Its record, or nothing where it is absent.
    pub kv: Option<Kv>,
    pub phase: Phase,
}

#[derive(Clone, Copy, Debug, PartialEq, Eq)]
pub enum Phase {
    /// The record is the store's, and reads are answered from it.
    Held,
    /// An owner write of the key is due or out; `revoked` marks that the key is given up once it is answered.
    Writing { revoked: bool },
    /// The key is given up: a rescind of it is out where it was `sent`, and else due.
    Leaving { sent: bool },
}
