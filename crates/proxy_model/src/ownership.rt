use etcd_types::{Bytes, Kv, List, Reply};

/// An ownership key that an answer showed.
#[derive(Debug, PartialEq, Eq, Drop)]
pub struct Owner {
    /// The key that is owned, without the leasing prefix.
    pub key: Bytes,
    /// The session that owns it.
    pub lease: u64,
    /// The create revision of the ownership key.
    pub create: u64,
    /// Whether it was asked to give the key up.
    pub revoked: bool,
}

/// A key that the proxy owns itself, with the create revision of its ownership key.
#[derive(Debug, PartialEq, Eq, Drop)]
pub struct Owned {
    pub key: Bytes,
    pub create: u64,
}

/// What the answer to an acquire says, beside the key's record.
#[derive(Debug, PartialEq, Eq, Drop)]
pub enum Claim {
    /// The key is owned from this revision on.
    Acquired {
        create: u64,
        kv: Option<Kv>,
    },
    /// It isn't, and this is the ownership key that stood in the way, if one did.
    OwnedBy {
        kv: Option<Kv>,
        owner: Option<Owner>,
    },
}

/// What the answer to a guarded write says.
#[derive(Debug, PartialEq, Eq, Drop)]
pub enum Written {
    /// It was done, and this is the answer to the write itself, with the transaction's header.
    Wrote(Reply),
    /// It wasn't, because of these owners.
    Blocked(List<Owner>),
}
