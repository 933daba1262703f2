// What the board knows of each place, and what its slots hold.
ghost use Rattle.std.specs.Prelude.{◌≡◌, if◌then◌else◌};
ghost use Rattle.std.specs.Option.{option_map};
ghost use Rattle.rules.specs.Kinds.{kinds_of};
ghost use Rattle.rules.specs.Moves.{slot_for, whole, on_left, on_right};
ghost use Rattle.board.specs.Of.{board_state};
ghost use Rattle.keys.specs.Orders.{below};
ghost use Rattle.board.specs.Cells.{slot_beside, tally_of, met_of, slot_of, side_shown};

use super::super::met::Met;
use super::Board;
use cells::{Side, Slot};
use keys::{Key, is_below};
use tallies::Tally;

impl<'a, K: Key, T: Tally<K>> Board<'a, K, T> {
    // The slot of the gate.
    pub fn gate(&self) -> Slot
        ensures { result ≡ self.now.gate }
    {
        self.gate
    }

    // The split of a place; none where the place is not made.
    pub fn split(&self, number: u16) -> Option<K>
        ensures { result ≡ option_map (λ f. f.split) ((board_state K.Key T.Tally self.now).place number) }
    {
        self.key(self.find(number)?.place_split()?)
    }

    // The slot of a place on a side.
    pub fn slot(&self, number: u16, side: Side) -> Slot
        ensures { result ≡ slot_beside self.now number side }
    {
        self.find(number)
            .map_or(Slot::Empty, |cell| cell.slot(side))
    }

    // The tally of a place.
    pub fn tally(&self, number: u16) -> T
        ensures { result ≡ tally_of K.Key T.Tally self.now number }
    {
        self.find(number).map_or(T::zero(), |cell| cell.tally)
    }

    // What a slot holds, with its key.
    pub fn met(&self, slot: Slot) -> Met<K>
        ensures { result ≡ met_of K.Key T.Tally self.now slot }
    {
        match slot {
            Slot::Empty => Met::Nothing,
            Slot::Key(name) => self
                .key(name)
                .map_or(Met::Nothing, |key| Met::Key(name, key)),
            Slot::Place(place) => Met::Place(place),
        }
    }

    // The slot on a key's side; the gate has only one.
    pub fn slot_for(&self, place: u16, key: K) -> Slot
        ensures { slot_of K.Key T.Tally self.now result ≡ slot_for (kinds_of K.Key T.Tally) (board_state K.Key T.Tally self.now) place key }
    {
        if place == 0 {
            return self.gate;
        }
        match self.split(place) {
            None => Slot::Empty,
            Some(split) => self.slot(place, side_of(key, split)),
        }
    }

    // The whole of a slot: zero, its key's weight or its place's tally.
    pub fn whole(&self, slot: Slot) -> T
        ensures { result ≡ whole (kinds_of K.Key T.Tally) (board_state K.Key T.Tally self.now) (slot_of K.Key T.Tally self.now slot) }
    {
        match self.met(slot) {
            Met::Nothing => T::zero(),
            Met::Key(_, key) => T::weight(key),
            Met::Place(place) => match self.split(place) {
                None => T::zero(),
                Some(_) => self.tally(place),
            },
        }
    }
}

// The side of a place on which a key belongs: those below the split left, all others right.
pub(super) fn side_of<K: Key>(key: K, split: K) -> Side
    ensures { side_shown result ≡ (if below K.Key.le key split then on_left else on_right) }
{
    if is_below(key, split) {
        Side::Left
    } else {
        Side::Right
    }
}
