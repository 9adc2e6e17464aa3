//! Changes of values where they stand.
ghost use Rattle.std.specs.Prelude.{◌≡◌, Option};

/// A change of a value where it stands, which tells what it replaced.
pub trait Change<V>: Drop {
    /// What was replaced.
    type Old;

    /// What a value is after the change.
    ghost changed: { Self → V → V };

    /// What the change replaces in a value. None where it leaves the value as it is.
    ghost replaced: { Self → V → Option Self.Old };

    /// Changes the value, and returns what was replaced.
    fn change(self, value: &mut V) -> Option<Self::Old>
        ensures value { value.new ≡ changed self value.old }
        ensures old { result ≡ replaced self value.old };
}
