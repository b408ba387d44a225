ghost use Rattle.std.specs.Prelude.{◌≡◌};

/// A change of what is kept, in its place.
pub trait Change<V> {
    ghost changed: { Self → V → V };

    fn apply(self, value: &mut V)
        ensures { value.new ≡ changed self value.old };
}
