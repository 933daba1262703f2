// Tallies as people read them.
ghost use Rattle.std.specs.Prelude.{Some};
ghost use Rattle.std.specs.Option.{option_map, option_zip};
ghost use Rattle.tallies.specs.TallyTexts.{number_text, classes_text, pair_text};

use super::classes::Classes;
use super::number::Number;
use super::pair::Pair;
use keys::Class;
use std::fmt;

impl fmt::Display for Number {
    ghost output = { λ number. Some (number_text number) };

    fn fmt<W: fmt::Write>(&self, f: &mut fmt::Formatter<W>) -> fmt::Result {
        let value = self.value();
        write!(f, "{value}")
    }
}

impl fmt::Display for Classes {
    ghost output = { λ classes. Some (classes_text classes) };

    fn fmt<W: fmt::Write>(&self, f: &mut fmt::Formatter<W>) -> fmt::Result {
        let m = self.count(Class::M);
        let w = self.count(Class::W);
        let c = self.count(Class::C);
        let s = self.count(Class::S);
        write!(f, "{m} {w} {c} {s}")
    }
}

impl<A: fmt::Display, B: fmt::Display> fmt::Display for Pair<A, B> {
    ghost output = { λ pair. option_map (λ both. pair_text (λ _. both.0) (λ _. both.1) pair) (option_zip (A.output pair.first) (B.output pair.second)) };

    fn fmt<W: fmt::Write>(&self, f: &mut fmt::Formatter<W>) -> fmt::Result {
        let first = &self.first;
        let second = &self.second;
        write!(f, "{first} {second}")
    }
}
