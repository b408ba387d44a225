use etcd_types::NoMemory;
use thiserror::Error;

/// Why a server serves no further client.
#[derive(Clone, Copy, Debug, PartialEq, Eq, Error)]
pub enum ServeEnd {
    /// The host was told to stop: no further client is wanted.
    #[error("stopped")]
    Stopped,
    /// Memory was wanting.
    #[error("no memory")]
    NoMemory,
    /// It can't listen, or no further client can come: the host's count of failures rose.
    #[error("listener fault")]
    ListenerFault,
    /// A worker or the ticker wasn't started: the spawner's count of failures rose.
    #[error("spawner fault")]
    SpawnerFault,
}

impl From<NoMemory> for ServeEnd {
    ghost use Rattle.std.specs.Prelude.{◌≡◌};
    ghost use Rattle.proxy_service.specs.declared.ends.ServeEnd.TheVariants as end;

    ghost from_gives = { λ _ e. e ≡ end.NoMemory };

    fn from(_e: NoMemory) -> ServeEnd {
        ServeEnd::NoMemory
    }
}
