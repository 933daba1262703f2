// Where a request waits: at most at one place in each mode, and in two modes only as the halves of a count.
ghost use Rattle.std.specs.Prelude.{◌≡◌};
ghost use Rattle.cells.specs.Rosters.{mode_at, waits_without, waits_with};

use rules::Mode;

#[derive(Clone, Copy, PartialEq, Eq, Debug)]
pub enum Waits {
    // Kept as a case: it goes over into the others and back, so all five are matched together.
    Nowhere,
    Between(u16),
    From(u16),
    Upto(u16),
    // A count that forked: the place of its lower half, and that of its upper half.
    Halves(u16, u16),
}

impl Waits {
    // In which mode a request waits at a place; none where it does not.
    pub fn at(self, place: u16) -> Option<Mode>
        ensures { result ≡ mode_at self place }
    {
        match self {
            Waits::Between(p) if p == place => Some(Mode::Between),
            Waits::From(p) if p == place => Some(Mode::From),
            Waits::Upto(p) if p == place => Some(Mode::Upto),
            Waits::Halves(from, _) if from == place => Some(Mode::From),
            Waits::Halves(_, upto) if upto == place => Some(Mode::Upto),
            _ => None,
        }
    }

    // Where the request waits once it has left a place.
    pub fn without(self, place: u16) -> Waits
        ensures { result ≡ waits_without self place }
    {
        match self {
            Waits::Between(p) | Waits::From(p) | Waits::Upto(p) if p == place => Waits::Nowhere,
            Waits::Halves(from, upto) if from == place && upto == place => Waits::Nowhere,
            Waits::Halves(from, upto) if from == place => Waits::Upto(upto),
            Waits::Halves(from, upto) if upto == place => Waits::From(from),
            _ => self,
        }
    }

    // Where the request waits once it has joined a place in a mode.
    pub fn with(self, place: u16, mode: Mode) -> Waits
        ensures { result ≡ waits_with self place mode }
    {
        match (mode, self) {
            (Mode::Between, _) => Waits::Between(place),
            (Mode::From, Waits::Upto(upto)) => Waits::Halves(place, upto),
            (Mode::From, Waits::Halves(_, upto)) => Waits::Halves(place, upto),
            (Mode::From, _) => Waits::From(place),
            (Mode::Upto, Waits::From(from)) => Waits::Halves(from, place),
            (Mode::Upto, Waits::Halves(from, _)) => Waits::Halves(from, place),
            (Mode::Upto, _) => Waits::Upto(place),
        }
    }
}
