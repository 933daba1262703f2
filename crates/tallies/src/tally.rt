// What a kind of tally over a kind of key is.
ghost use Rattle.std.specs.Prelude.{◌≡◌};

use keys::Key;

pub trait Tally<K: Key>: Copy {
    // The tally of no key.
    ghost none: { Self };

    // Two tallies joined.
    ghost joined: { Self → Self → Self };

    // What takes a tally away again.
    ghost opposed: { Self → Self };

    // The tally of one key.
    ghost weighed: { K → Self };

    fn zero() -> Self
        ensures { result ≡ none };

    fn join(self, other: Self) -> Self
        ensures { result ≡ joined self other };

    fn opposite(self) -> Self
        ensures { result ≡ opposed self };

    fn weight(key: K) -> Self
        ensures { result ≡ weighed key };

    ghost associative: { (a b c : Self) → joined (joined a b) c ≡ joined a (joined b c) };

    ghost commutative: { (a b : Self) → joined a b ≡ joined b a };

    ghost neutral: { (a : Self) → joined none a ≡ a };

    ghost cancelling: { (a : Self) → joined a (opposed a) ≡ none };
}
