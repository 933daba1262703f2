// A board just opened, and its size.
ghost use Rattle.std.specs.Prelude.{◌≡◌, length};
ghost use Rattle.rules.specs.Kinds.{kinds_of};
ghost use Rattle.rules.specs.Queues.{given};
ghost use Rattle.rules.specs.States.{opening};
ghost use Rattle.board.specs.Of.{board_state, row_length};

use super::Board;
use cells::{Cell, Desk, Slot};
use keys::Key;
use rules::Note;
use tallies::Tally;

// A register takes at most so many requests.
// Kept beside an archive's most rows: neither crate stands on the other, and each number is a rule of its own.
const MOST_REQUESTS: usize = 1024;

impl<'a, K: Key, T: Tally<K>> Board<'a, K, T> {
    // The board over a row of cells, whatever they hold: empty.
    pub fn open(cells: &'a mut [Cell<K::Fields, T>]) -> Board<'a, K, T>
        ensures after { board_state K.Key T.Tally result ≡ opening (kinds_of K.Key T.Tally) (length cells.old) }
        ensures row { row_length result ≡ length cells.old }
    {
        let desk = Desk {
            note: Note::None,
            uncollected: None,
        };
        Board {
            cells,
            count: 0,
            gate: Slot::Empty,
            desks: [desk; 8],
        }
    }

    // How many requests were given numbers.
    pub fn count(&self) -> usize
        ensures { result ≡ given (board_state K.Key T.Tally self.now) }
    {
        self.count
    }

    // How many requests the board takes.
    pub fn capacity(&self) -> usize
        ensures { result ≡ (board_state K.Key T.Tally self.now).capacity }
    {
        self.cells.len().min(MOST_REQUESTS)
    }
}
