// One cell: request t and, once it is made, place t.
ghost use Rattle.std.specs.Prelude.{◌≡◌};
ghost use Rattle.cells.specs.Views.{blank_cell, side_slot, split_of};

use super::outcome::Outcome;
use super::side::Side;
use super::slot::Slot;
use super::waits::Waits;
use requests::Kind;

#[derive(Clone, Copy, PartialEq, Eq, Debug)]
pub struct Cell<F, T> {
    // The request: who asked, for what, and how far it is.
    // Kept: a number, 0 for no station, since a narrower type would ask more of who lends the cells.
    pub station: u8,
    pub kind: Kind,
    pub first: F,
    pub second: F,
    pub decision: Option<bool>,
    pub outcome: Option<Outcome>,
    pub counted: T,
    pub waits: Waits,
    // The place: whether it is made, its split by the number of the request that entered that key, its slots and tally.
    // Kept: the flag beside a number that is free until then, since an option would ask more of who lends the cells.
    pub made: bool,
    pub split: u16,
    pub left: Slot,
    pub right: Slot,
    pub tally: T,
}

impl<F: Copy, T: Copy> Cell<F, T> {
    // A cell to lend to a register, which takes it for empty whatever it holds.
    pub fn blank(fields: F, tally: T) -> Cell<F, T>
        ensures { result ≡ blank_cell fields tally }
    {
        Cell {
            station: 0,
            kind: Kind::LookUp,
            first: fields,
            second: fields,
            decision: None,
            outcome: None,
            counted: tally,
            waits: Waits::Nowhere,
            made: false,
            split: 0,
            left: Slot::Empty,
            right: Slot::Empty,
            tally,
        }
    }

    // The number that names the place's split, once it is made.
    pub fn place_split(&self) -> Option<u16>
        ensures { result ≡ split_of self.now }
    {
        self.made.then_some(self.split)
    }

    // The place's slot on a side.
    pub fn slot(&self, side: Side) -> Slot
        ensures { result ≡ side_slot side self.now }
    {
        match side {
            Side::Left => self.left,
            Side::Right => self.right,
        }
    }
}
