ghost use Rattle.std.specs.Prelude.{◌≡◌, IfOk};

use etcd_types::NoMemory;
use thread_makers::Nothing;

/// What a part starts further ones by, made for one part after another.
pub trait Further: Drop {
    /// The same, for a further part.
    fn another(&self) -> Result<Self, NoMemory>;
}

impl<P, C> Further for Nothing<P, C> {
    fn another(&self) -> Result<Nothing<P, C>, NoMemory>
        ensures fresh { IfOk result (λ further. further.faults ≡ 0) }
    {
        Ok(Nothing::new())
    }
}
