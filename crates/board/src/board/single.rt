// One cell read, or changed and written back whole.
ghost use Rattle.std.specs.Prelude.{◌≡◌, Some};
ghost use Rattle.std.specs.Option.{option_map};
ghost use Rattle.rules.specs.Queues.{numbered};
ghost use Rattle.cells.specs.Names.{CellNamed};
ghost use Rattle.board.specs.Cells.{live};
ghost use Rattle.board.specs.Written.{Changed};

use super::Board;
use cells::{Cell, numbered};
use keys::Key;
use tallies::Tally;

impl<'a, K: Key, T: Tally<K>> Board<'a, K, T> {
    // The cell of a number that was given.
    pub(super) fn find(&self, number: u16) -> Option<&Cell<K::Fields, T>>
        ensures { option_map (λ c. c.now) result ≡ numbered (live self.now) number }
    {
        let cells = &*self.cells;
        numbered(&cells[..self.count], number)
    }

    // Changes the cell of a number that was given to one that names only requests that were submitted.
    pub(super) fn change<F: FnOnce(Cell<K::Fields, T>) -> Cell<K::Fields, T>>(
        &mut self,
        number: u16,
        change: F,
    )
        requires callable { F.IsAlwaysCallable change }
        requires named { (c c' : _) → numbered (live self.old) number ≡ Some c → F.post change c c' → ∥ CellNamed self.old.count c' ∥₁ }
        ensures { Changed self.old self.new number (λ c c'. F.post change c c') }
    {
        let Some(&cell) = self.find(number) else {
            return;
        };
        self.cells[usize::from(number) - 1] = change(cell);
    }
}
