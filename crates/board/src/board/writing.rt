// Single changes of requests and places: each writes one cell, or the gate.
ghost use Rattle.std.specs.Prelude.{◌≡◌, if◌then◌else◌};
ghost use Rattle.rules.specs.Changes.{with_decision, with_answer};
ghost use Rattle.rules.specs.Kinds.{kinds_of};
ghost use Rattle.rules.specs.Moves.{with_added, with_slot_for, with_joined};
ghost use Rattle.rules.specs.Queues.{given};
ghost use Rattle.cells.specs.Outcomes.{answer_of};
ghost use Rattle.board.specs.Of.{Turns, if_given};
ghost use Rattle.board.specs.Cells.{names, slot_of};
ghost use Rattle.board.specs.Made.{made_after};

use super::Board;
use super::places::side_of;
use cells::{Cell, Outcome, Side, Slot};
use keys::Key;
use tallies::Tally;

impl<'a, K: Key, T: Tally<K>> Board<'a, K, T> {
    // Writes whether the key of a request was present just before it.
    pub fn decide(&mut self, number: u16, present: bool)
        ensures { Turns K.Key T.Tally self.old self.new (λ s s'. s' ≡ if_given s number (with_decision s number present)) }
    {
        self.change(
            number,
            |cell| Cell {
                decision: Some(present),
                ..cell
            },
        );
    }

    // Writes the answer of a request that is no count.
    pub fn answer(&mut self, number: u16, outcome: Outcome)
        ensures { Turns K.Key T.Tally self.old self.new (λ s s'. s' ≡ if_given s number (with_answer s number (answer_of outcome))) }
    {
        self.change(
            number,
            |cell| Cell {
                outcome: Some(outcome),
                ..cell
            },
        );
    }

    // Joins a weight to a count's tally.
    pub fn add(&mut self, number: u16, weight: T)
        ensures { Turns K.Key T.Tally self.old self.new (λ s s'. s' ≡ if_given s number (with_added (kinds_of K.Key T.Tally) s number weight)) }
    {
        self.change(
            number,
            |cell| Cell {
                counted: cell.counted.join(weight),
                ..cell
            },
        );
    }

    // Joins a weight to a place's tally.
    pub fn join_tally(&mut self, number: u16, weight: T)
        ensures { Turns K.Key T.Tally self.old self.new (λ s s'. s' ≡ with_joined (kinds_of K.Key T.Tally) s number weight) }
    {
        self.change(
            number,
            |cell| Cell {
                tally: cell.tally.join(weight),
                ..cell
            },
        );
    }

    // Writes the slot on a key's side, unless it would name a request that was never submitted.
    pub fn put_slot(&mut self, number: u16, key: K, slot: Slot)
        ensures { Turns K.Key T.Tally self.old self.new (λ s s'. s' ≡ (if names (given s) slot then with_slot_for (kinds_of K.Key T.Tally) s number key (slot_of K.Key T.Tally self.old slot) else s)) }
    {
        if !self.is_named(slot) {
            return;
        }
        if number == 0 {
            self.gate = slot;
            return;
        }
        let Some(split) = self.split(number) else {
            return;
        };
        let side = side_of(key, split);
        self.change(number, |cell| match side {
            Side::Left => Cell { left: slot, ..cell },
            Side::Right => Cell {
                right: slot,
                ..cell
            },
        });
    }

    // Whether a slot names no key of a request that was never submitted.
    fn is_named(&self, slot: Slot) -> bool
        ensures { result ≡ names self.now.count slot }
    {
        match slot {
            Slot::Key(name) => usize::from(name) <= self.count,
            Slot::Empty | Slot::Place(_) => true,
        }
    }

    // Makes the place of a request from its key and the key that another number names.
    pub fn make(&mut self, number: u16, other: u16)
        ensures { Turns K.Key T.Tally self.old self.new (λ s s'. s' ≡ made_after K.Key T.Tally self.old number other) }
    {
        let Some(own) = self.key(number) else {
            return;
        };
        let Some(held) = self.key(other) else {
            return;
        };
        let (low, high) = if held.at_most(own) {
            (other, number)
        } else {
            (number, other)
        };
        let tally = T::weight(held).join(T::weight(own));
        self.change(
            number,
            |cell| Cell {
                made: true,
                split: high,
                left: Slot::Key(low),
                right: Slot::Key(high),
                tally,
                ..cell
            },
        );
    }
}
