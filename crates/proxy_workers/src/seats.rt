ghost use Rattle.std.specs.Prelude.{◌≡◌, IfOk, IsTrue};

use etcd_types::NoMemory;
use proxy_server::Turn;

/// A turn at whose machine further parts can be given a seat.
pub trait Seats: Turn {
    /// A seat of a part's own at the same machine.
    type Place: Drop;

    // what stays the same of a place's turn
    ghost place_home: { Self.Place → Self.Home };

    /// A seat for another part. No step is made.
    fn another(&mut self) -> Result<Self::Place, NoMemory>
        ensures made { Self.made self.new ≡ Self.made self.old }
        ensures home { Self.home self.new ≡ Self.home self.old }
        ensures late { IsTrue (Self.worn self.old) → IsTrue (Self.worn self.new) }
        ensures allowed { Self.allowed self.old → Self.allowed self.new }
        ensures place { IfOk result (λ place. place_home place ≡ Self.home self.old) };
}
