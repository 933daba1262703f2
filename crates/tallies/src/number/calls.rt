// Making numbers, reading them, and their joining.
ghost use Rattle.std.specs.Prelude.{◌≡◌, ◌^◌};
ghost use Rattle.tallies.specs.Numbers.{number_of, number_joined, number_opposed};
ghost use Rattle.tallies.specs.Modular.{mod_associative, mod_neutral, mod_cancelling};
ghost use Rattle.tallies.specs.NumbersLemmas.{number_path};
ghost use Rattle.std.proofs.Common.{rules, arith};

use super::super::tally::Tally;
use super::Number;
use keys::Key;

impl Number {
    // Kept beside `Classes::new`: each kind of tally is made of its counts.
    pub fn new(value: u32) -> Number
        ensures { result ≡ number_of value }
    {
        Number { value }
    }

    // Kept: a getter of the field, by the name that clauses use.
    pub fn value(self) -> u32
        ensures { result ≡ self.value }
    {
        self.value
    }
}

impl<K: Key> Tally<K> for Number {
    ghost none = { number_of 0 };

    ghost joined = { number_joined };

    ghost opposed = { number_opposed };

    // Every key weighs one.
    ghost weighed = { λ _. number_of 1 };

    ghost associative = { λ a b c. number_path _ _ (mod_associative (2 ^ 32) a.value b.value c.value) };

    ghost commutative = { first_of (Prim.search rules, Prim.grind (arith, Self.row.coded.inj)) };

    ghost neutral = { λ a. number_path _ a (mod_neutral (2 ^ 32) a.value a.fits) };

    ghost cancelling = { λ a. number_path _ _ (mod_cancelling (2 ^ 32) a.value a.fits) };

    fn zero() -> Number {
        Number::new(0)
    }

    fn join(self, other: Number) -> Number {
        Number::new(self.value.wrapping_add(other.value))
    }

    fn opposite(self) -> Number {
        Number::new(self.value.wrapping_neg())
    }

    fn weight(_key: K) -> Number {
        Number::new(1)
    }
}
