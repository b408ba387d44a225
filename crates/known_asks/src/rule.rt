ghost use Rattle.std.specs.Prelude.{◌≡◌};
ghost use Rattle.read_model.specs.declared.asked.Asked.{Asked as Value};

use read_model::Asked;

/// A change of a request in its place.
pub trait Rule {
    ghost changed: { Self → Value → Value };

    fn change(&self, ask: &mut Asked)
        ensures { ask.new ≡ changed self.now ask.old };

    /// The ticket stays.
    ghost keeps: { (s : Self) (a : Value) → (changed s a).ticket ≡ a.ticket };
}
