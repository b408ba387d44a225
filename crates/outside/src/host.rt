ghost use Rattle.std.specs.Prelude.{◌≡◌, ℕ, List, Option, ◌∷◌, []};
ghost use Rattle.outside.specs.Calls.{Adds, HostCall, Listened, Accepted};
ghost use Rattle.outside.specs.Faults.{HasCause};

use crate::source::Failed;
use etcd_types::Bytes;

/// What accepts connections.
pub trait Host {
    type Conn: Drop;

    /// The calls that were made on it, in order, for as long as it tells them.
    ghost made: { Self → Option (List (HostCall Self.Conn)) };

    /// How often it has failed.
    ghost faults: { Self → ℕ };

    /// Listens on an address, `host:port`, from now on.
    fn listen(&mut self, address: &Bytes) -> Result<(), Failed>
        ensures made { Adds (made self.old) (made self.new) (Listened address.now result ∷ []) }
        ensures cause { HasCause (faults self.old) (faults self.new) result };

    /// Waits for the next connection. There is none where it was told to stop, and it is `Failed` only where no further one can come.
    fn accept(&mut self) -> Result<Option<Self::Conn>, Failed>
        ensures made { Adds (made self.old) (made self.new) (Accepted result ∷ []) }
        ensures cause { HasCause (faults self.old) (faults self.new) result };
}
