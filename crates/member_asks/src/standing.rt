ghost use Rattle.std.specs.Prelude.{◌≡◌};
ghost use Rattle.member_asks.specs.Standings.{is_another, newer};

/// How far a cluster's history was, as the header of a reply says.
#[derive(Clone, Copy, Debug, PartialEq, Eq)]
pub struct Standing {
    /// The cluster's number.
    pub cluster: u64,
    /// The number of the member that replied.
    pub member: u64,
    /// The store's revision.
    pub revision: u64,
    /// The raft term.
    pub term: u64,
}

impl Standing {
    /// Whether this is of another history than `before`, which was told by a reply that had come before this one was asked for. A term says
    /// nothing: a member that was cut off may have told a higher one.
    pub fn is_another(&self, before: &Standing) -> bool
        ensures { result ≡ is_another before.now self.now }
    {
        self.cluster != before.cluster || self.revision < before.revision
    }

    /// That of the two which is of the greater revision, and this one where they are equal.
    pub fn newer(self, before: Standing) -> Standing
        ensures { result ≡ newer before self }
    {
        if self.revision < before.revision {
            before
        } else {
            self
        }
    }
}
