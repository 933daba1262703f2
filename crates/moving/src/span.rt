// What a count asks for: the keys from one to another.
ghost use Rattle.std.specs.Prelude.{◌≡◌};
ghost use Rattle.rules.specs.Kinds.{kinds_of};
ghost use Rattle.rules.specs.Moves.{wanted};

use keys::Key;
use rules::Mode;
use tallies::Tally;

#[derive(Clone, Copy, PartialEq, Eq, Debug)]
pub(super) struct Span<K> {
    pub lo: K,
    pub hi: K,
}

impl<K: Key> Span<K> {
    // Whether a count wants a key in a mode.
    pub fn wants<T: Tally<K>>(self, mode: Mode, key: K) -> bool
        ensures { result ≡ wanted (kinds_of K.Key T.Tally) self.lo self.hi mode key }
    {
        match mode {
            Mode::Between => self.lo.at_most(key) && key.at_most(self.hi),
            Mode::From => self.lo.at_most(key),
            Mode::Upto => key.at_most(self.hi),
        }
    }
}
