use crate::lookout::Lookout;
use etcd_types::{Header, NoMemory};
use http_talk::{OwnMember, Ready};
use outside::{Clock, Draw, Link, Sink, Source};
use std::alloc::Global;
use std::sync::Arc;

/// What the parts of a server meet outside, made for one part after another.
pub trait Ends: Drop {
    type Conn: Drop;

    type Source: Source + Drop;

    type Sink: Sink + Drop;

    type Answer: Source + Drop;

    type Link: Link<Answer = Self::Answer> + Drop;

    type Clock: Clock + Drop;

    type Draw: Draw + Drop;

    /// The same, for a further part.
    fn another(&self) -> Result<Self, NoMemory>;

    fn link(&self) -> Result<Self::Link, NoMemory>;

    fn clock(&self) -> Result<Self::Clock, NoMemory>;

    /// Words for the ticker, which nobody else draws.
    fn ticker_draw(&self) -> Option<Self::Draw>;

    /// Words for any other part.
    fn draw(&self) -> Option<Self::Draw>;

    /// Whether some member answered when it was asked last, or wasn't asked yet.
    fn one_answers(&self) -> bool;

    /// What the server tells of itself as the one member of its cluster.
    fn own(&self) -> Result<Arc<OwnMember, Global>, NoMemory>;

    /// The header of the newest reply of a member, where one came.
    fn newest(&self) -> Option<Header>;

    /// What the first member that answers says of itself, to this body. Nothing where none answers in time.
    fn status(&self, body: &[u8]) -> Result<Option<Ready>, NoMemory>;

    /// The two ends of an accepted connection, whose part has this clock.
    fn open(
        &self,
        connection: Self::Conn,
        clock: &Self::Clock,
    ) -> Result<(Self::Source, Self::Sink), NoMemory>;

    /// A connection was served to its end.
    fn close(&self, source: Self::Source, sink: Self::Sink);

    /// The machine runs: by this it can be looked at.
    fn shown(&self, lookout: Lookout);
}
