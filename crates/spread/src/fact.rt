// What a kind of fact is.
ghost use Rattle.std.specs.Prelude.{◌≡◌, true};

/// Facts that can be joined: a value with a least one, `zero`, and a `join` of any two, which alters neither.
/// Two facts are equal where they are the same value.
pub trait Fact: Copy {
    ghost zero: { Self };

    ghost join: { Self → Self → Self };

    fn none() -> Self
        ensures { result ≡ zero };

    fn joined(self, other: Self) -> Self
        ensures { result ≡ join self other };

    fn same(self, other: Self) -> bool
        ensures sound { result ≡ true → self ≡ other }
        ensures full { self ≡ other → result ≡ true };

    ghost assoc: { (x y z : Self) → join (join x y) z ≡ join x (join y z) };

    ghost comm: { (x y : Self) → join x y ≡ join y x };

    ghost idem: { (x : Self) → join x x ≡ x };

    ghost left: { (x : Self) → join zero x ≡ x };
}
