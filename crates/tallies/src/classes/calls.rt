// Making counts by class, reading them, and their joining.
ghost use Rattle.std.specs.Prelude.{◌≡◌, ◌^◌};
ghost use Rattle.tallies.specs.ClassCounts.{classes_of, classes_joined, classes_opposed, class_weight, count_in};
ghost use Rattle.tallies.specs.Modular.{mod_associative, mod_neutral, mod_cancelling};
ghost use Rattle.tallies.specs.ClassCountsLemmas.{classes_path};
ghost use Rattle.std.proofs.Common.{rules, arith};

use super::super::tally::Tally;
use super::Classes;
use keys::{Class, Route};

impl Classes {
    pub fn new(m: u16, w: u16, c: u16, s: u16) -> Classes
        ensures { result ≡ classes_of m w c s }
    {
        Classes { m, w, c, s }
    }

    // How many routes of that class.
    pub fn count(self, class: Class) -> u16
        ensures { result ≡ count_in self class }
    {
        match class {
            Class::M => self.m,
            Class::W => self.w,
            Class::C => self.c,
            Class::S => self.s,
        }
    }
}

impl Tally<Route> for Classes {
    ghost none = { classes_of 0 0 0 0 };

    ghost joined = { classes_joined };

    ghost opposed = { classes_opposed };

    ghost weighed = { λ k. class_weight k.class };

    ghost associative = { λ a b c. classes_path _ _ (mod_associative (2 ^ 16) a.m b.m c.m) (mod_associative (2 ^ 16) a.w b.w c.w) (mod_associative (2 ^ 16) a.c b.c c.c) (mod_associative (2 ^ 16) a.s b.s c.s) };

    ghost commutative = { first_of (Prim.search rules, Prim.grind (arith, Self.row.coded.inj)) };

    ghost neutral = { λ a. classes_path _ a (mod_neutral (2 ^ 16) a.m a.front.0) (mod_neutral (2 ^ 16) a.w a.front.1) (mod_neutral (2 ^ 16) a.c a.back.0) (mod_neutral (2 ^ 16) a.s a.back.1) };

    ghost cancelling = { λ a. classes_path _ _ (mod_cancelling (2 ^ 16) a.m a.front.0) (mod_cancelling (2 ^ 16) a.w a.front.1) (mod_cancelling (2 ^ 16) a.c a.back.0) (mod_cancelling (2 ^ 16) a.s a.back.1) };

    fn zero() -> Classes {
        Classes::new(0, 0, 0, 0)
    }

    fn join(self, other: Classes) -> Classes {
        Classes::new(
            self.m.wrapping_add(other.m),
            self.w.wrapping_add(other.w),
            self.c.wrapping_add(other.c),
            self.s.wrapping_add(other.s),
        )
    }

    fn opposite(self) -> Classes {
        Classes::new(
            self.m.wrapping_neg(),
            self.w.wrapping_neg(),
            self.c.wrapping_neg(),
            self.s.wrapping_neg(),
        )
    }

    fn weight(key: Route) -> Classes {
        match key.class() {
            Class::M => Classes::new(1, 0, 0, 0),
            Class::W => Classes::new(0, 1, 0, 0),
            Class::C => Classes::new(0, 0, 1, 0),
            Class::S => Classes::new(0, 0, 0, 1),
        }
    }
}
