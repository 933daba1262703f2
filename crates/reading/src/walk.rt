// The walk over a row of cells: down to the left, and back to the right side of the last place in the work row.
ghost use Rattle.std.specs.Prelude.{◌≡◌, ◌≤◌, [], ◌∷◌, length, Some, None};
ghost use Rattle.reading.specs.Walks.{rising_from, visits, to_come, Stands, firsts_under};

use super::slots::{first_of, rising, slot_of};
use cells::{Cell, Side, Slot};

// The slot at hand, and how many places of the work row have their right side still to come.
// Kept: the work row is lent memory, so how much of it is used stands beside it.
#[derive(Clone, Copy, PartialEq, Eq, Debug)]
pub struct Walk {
    pub at: Slot,
    pub depth: usize,
}

// The slots that a walk comes by.
#[derive(Drop)]
pub struct Slots<'a, F, T> {
    live: &'a [Cell<F, T>],
    work: &'a mut [u16],
    walk: Option<Walk>,
}

impl<'a, F: Copy, T: Copy> Slots<'a, F, T> {
    ghost use Rattle.reading.specs.Slots.{slots_left, CanGoOn};

    // All slots under the gate, by a work row with a number for each cell at least.
    pub fn new(live: &'a [Cell<F, T>], gate: Slot, work: &'a mut [u16]) -> Slots<'a, F, T>
        requires { length live.now ≤ length work.old }
        ensures slots { slots_left result ≡ visits live.now (length live.now) (rising_from 0 (length live.now) gate) }
        ensures begun { CanGoOn result }
    {
        let at = rising(gate, 0, live.len());
        Slots {
            live,
            work,
            walk: Some(Walk { at, depth: 0 }),
        }
    }
}

impl<'a, F: Copy, T: Copy> Iterator for Slots<'a, F, T> {
    type Item = Slot;

    ghost use Rattle.std.specs.Iterator.{YieldsFirst, item_count};
    ghost use Rattle.reading.specs.Slots.{slots_left, CanGoOn};

    ghost can_next = { CanGoOn };

    ghost next_gives = { YieldsFirst slots_left };

    ghost remaining = { item_count slots_left };

    fn next(&mut self) -> Option<Slot> {
        let walk = self.walk?;
        let work = &mut *self.work;
        self.walk = step(self.live, walk, work);
        Some(walk.at)
    }
}

// The fields of the keys that the slots of a walk name.
// Kept as a type, tried as a chain: over `filter_map(..).enumerate()` in a generic function a loop's goal is ill-typed today.
#[derive(Drop)]
pub struct Firsts<'a, F, T> {
    live: &'a [Cell<F, T>],
    slots: Slots<'a, F, T>,
}

impl<'a, F: Copy, T: Copy> Firsts<'a, F, T> {
    ghost use Rattle.reading.specs.Slots.{firsts_left, CanFind};

    // All keys under the gate, by a work row with a number for each cell at least.
    pub fn new(live: &'a [Cell<F, T>], gate: Slot, work: &'a mut [u16]) -> Firsts<'a, F, T>
        requires { length live.now ≤ length work.old }
        ensures firsts { firsts_left result ≡ firsts_under live.now gate }
        ensures begun { CanFind result }
    {
        Firsts {
            live,
            slots: Slots::new(live, gate, work),
        }
    }
}

impl<'a, F: Copy, T: Copy> Iterator for Firsts<'a, F, T> {
    type Item = F;

    ghost use Rattle.std.specs.Iterator.{YieldsFirst, item_count};
    ghost use Rattle.reading.specs.Slots.{firsts_left, CanFind};

    ghost can_next = { CanFind };

    ghost next_gives = { YieldsFirst firsts_left };

    ghost remaining = { item_count firsts_left };

    fn next(&mut self) -> Option<F> {
        // Kept as a loop, tried as `find_map`: two goals of it stayed open.
        while let Some(at) = self.slots.next() {
            if let Some(first) = first_of(self.live, at) {
                return Some(first);
            }
        }
        None
    }
}

// The next slot; none after the last.
fn step<F: Copy, T: Copy>(live: &[Cell<F, T>], walk: Walk, work: &mut [u16]) -> Option<Walk>
    requires { Stands live.now work.old walk.depth walk.at }
    ensures visits { elim result [ None ↦ to_come live.now work.old walk.depth walk.at ≡ walk.at ∷ [] | Some w ↦ to_come live.now work.old walk.depth walk.at ≡ walk.at ∷ to_come live.now work.new w.depth w.at ] }
    ensures stands { elim result [ None ↦ Unit {0} | Some w ↦ Stands live.now work.new w.depth w.at ] }
{
    if let Slot::Place(p) = walk.at {
        work[walk.depth] = p;
        return Some(Walk {
            at: slot_of(live, p, Side::Left),
            depth: walk.depth + 1,
        });
    }
    if walk.depth == 0 {
        return None;
    }
    let depth = walk.depth - 1;
    Some(Walk {
        at: slot_of(live, work[depth], Side::Right),
        depth,
    })
}
