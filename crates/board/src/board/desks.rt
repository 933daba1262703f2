// The desks of the stations: their notes and their uncollected requests.
ghost use Rattle.std.specs.Prelude.{◌≡◌, ◌-◌};
ghost use Rattle.rules.specs.Changes.{with_note, with_uncollected};
ghost use Rattle.board.specs.Of.{board_state, Turns};

use super::Board;
use keys::Key;
use requests::Station;
use rules::Note;
use tallies::Tally;

// Which of the eight desks is a station's.
pub(super) fn desk_of(station: Station) -> usize
    ensures { result ≡ station.number - 1 }
{
    usize::from(station.number() - 1)
}

impl<'a, K: Key, T: Tally<K>> Board<'a, K, T> {
    pub fn note(&self, station: Station) -> Note
        ensures { result ≡ ((board_state K.Key T.Tally self.now).desk station.number).note }
    {
        self.desks[desk_of(station)].note
    }

    pub fn uncollected(&self, station: Station) -> Option<u16>
        ensures { result ≡ ((board_state K.Key T.Tally self.now).desk station.number).uncollected }
    {
        self.desks[desk_of(station)].uncollected
    }

    pub fn set_note(&mut self, station: Station, note: Note)
        ensures { Turns K.Key T.Tally self.old self.new (λ s s'. s' ≡ with_note s station.number note) }
    {
        let at = desk_of(station);
        self.desks[at].note = note;
    }

    pub fn set_uncollected(&mut self, station: Station, uncollected: Option<u16>)
        ensures { Turns K.Key T.Tally self.old self.new (λ s s'. s' ≡ with_uncollected s station.number uncollected) }
    {
        let at = desk_of(station);
        self.desks[at].uncollected = uncollected;
    }
}
