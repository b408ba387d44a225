// What the members' replies told last.

use etcd_types::Header;
use member_asks::Standing;
use std::sync::{Mutex, Wait};

/// How far the cluster's history was at the newest, by the replies to those who ask the members.
#[derive(Drop)]
pub(crate) struct Newest {
    standing: Mutex<Option<Standing>>,
}

impl Newest {
    /// No reply came yet.
    pub(crate) fn new() -> Newest {
        Newest {
            standing: Mutex::new(None),
        }
    }

    pub(crate) fn standing<R: Wait>(&self, rt: &R) -> Option<Standing> {
        *self.standing.lock(rt)
    }

    /// This one came.
    pub(crate) fn add<R: Wait>(&self, rt: &R, standing: Standing) {
        let mut newest = self.standing.lock(rt);
        *newest = match *newest {
            Some(other) => Some(standing.newer(other)),
            None => Some(standing),
        };
    }

    /// The header of the reply that told it.
    pub(crate) fn header<R: Wait>(&self, rt: &R) -> Option<Header> {
        let standing = self.standing(rt)?;
        Some(Header {
            cluster: standing.cluster,
            member: standing.member,
            revision: standing.revision,
            term: standing.term,
        })
    }
}
