// The board: the lent cells, how many of them hold requests, the gate's slot and the stations' desks.
ghost use Rattle.std.specs.Prelude.{◌≡◌, ◌≤◌, length, take};
ghost use Rattle.cells.specs.Names.{SlotNamed, CellsNamed};

use cells::{Cell, Desk, Slot};
use keys::Key;
use tallies::Tally;

mod asked;
mod desks;
mod joining;
mod off;
mod opening;
mod places;
mod single;
mod taking;
mod writing;

pub struct Board<'a, K: Key, T: Tally<K>> {
    cells: &'a mut [Cell<K::Fields, T>],
    // Kept: the cells are lent, so how many of them hold requests stands beside them.
    count: usize,
    gate: Slot,
    desks: [Desk; 8],
    ghost room: { (count ≤ length cells.now) × (count ≤ 1024) },
    ghost eight: { length desks ≡ 8 },
    ghost named: { ∥ SlotNamed count gate × CellsNamed count (take count cells.now) ∥₁ },
}
