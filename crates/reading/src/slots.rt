// The slots of a row of cells: where they lead, and which keys they name.
ghost use Rattle.std.specs.Prelude.{◌≡◌, length};
ghost use Rattle.reading.specs.Walks.{rising_from, is_split, slot_below, first_named};

use cells::{Cell, Side, Slot, numbered};

// A slot below a place; one that leads to no higher place, or past the bound, is taken for empty.
pub fn rising(slot: Slot, above: u16, most: usize) -> Slot
    ensures { result ≡ rising_from above most slot }
{
    match slot {
        Slot::Place(p) if p <= above || most < usize::from(p) => Slot::Empty,
        _ => slot,
    }
}

// Whether a place is made: its split is the number of a cell.
fn is_split<F: Copy, T: Copy>(live: &[Cell<F, T>], split: Option<u16>) -> bool
    ensures { result ≡ is_split live.now split }
{
    split.is_some_and(|name| numbered(live, name).is_some())
}

// The slot of a place on one side; a place that is not made has empty ones.
pub fn slot_of<F: Copy, T: Copy>(live: &[Cell<F, T>], place: u16, side: Side) -> Slot
    ensures { result ≡ slot_below live.now place side }
{
    match numbered(live, place) {
        Some(cell) if is_split(live, cell.place_split()) => rising(
            cell.slot(side),
            place,
            live.len(),
        ),
        _ => Slot::Empty,
    }
}

// The fields of the key that a slot names.
pub fn first_of<F: Copy, T: Copy>(live: &[Cell<F, T>], at: Slot) -> Option<F>
    ensures { result ≡ first_named live.now at }
{
    match at {
        Slot::Key(name) => numbered(live, name).map(|cell| cell.first),
        _ => None,
    }
}
