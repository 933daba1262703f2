// Two tallies of one kind of key side by side: again a kind of tally.
ghost use Rattle.std.proofs.Common.{rules};

use super::tally::Tally;
use keys::Key;

#[derive(Clone, Copy, PartialEq, Eq, Debug)]
pub struct Pair<A, B> {
    pub first: A,
    pub second: B,
}

impl<K: Key, A: Tally<K>, B: Tally<K>> Tally<K> for Pair<A, B> {
    ghost none = { record { first = A.Tally.none; second = B.Tally.none } };

    ghost joined = { λ a b. record { first = A.Tally.joined a.first b.first; second = B.Tally.joined a.second b.second } };

    ghost opposed = { λ a. record { first = A.Tally.opposed a.first; second = B.Tally.opposed a.second } };

    ghost weighed = { λ k. record { first = A.Tally.weighed k; second = B.Tally.weighed k } };

    ghost associative = { Prim.search rules };

    ghost commutative = { Prim.search rules };

    ghost neutral = { Prim.search rules };

    ghost cancelling = { Prim.search rules };

    fn zero() -> Pair<A, B> {
        Pair {
            first: A::zero(),
            second: B::zero(),
        }
    }

    fn join(self, other: Pair<A, B>) -> Pair<A, B> {
        Pair {
            first: self.first.join(other.first),
            second: self.second.join(other.second),
        }
    }

    fn opposite(self) -> Pair<A, B> {
        Pair {
            first: self.first.opposite(),
            second: self.second.opposite(),
        }
    }

    fn weight(key: K) -> Pair<A, B> {
        Pair {
            first: A::weight(key),
            second: B::weight(key),
        }
    }
}
