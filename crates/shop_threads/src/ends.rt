use etcd_types::NoMemory;
use outside::{Clock, Sink, Source};

/// What the connections to a store meet outside, made for one after another.
pub trait ShopEnds: Drop {
    type Conn: Drop;

    type Source: Source + Drop;

    type Sink: Sink + Drop;

    type Clock: Clock + Drop;

    /// The same, for a further connection.
    fn another(&self) -> Result<Self, NoMemory>;

    /// A clock of its own, whose readings are of the same time.
    fn clock(&self) -> Result<Self::Clock, NoMemory>;

    /// The two ends of an accepted connection.
    fn open(&self, connection: Self::Conn) -> Result<(Self::Source, Self::Sink), NoMemory>;

    /// A connection was served to its end.
    fn close(&self, source: Self::Source, sink: Self::Sink);
}
