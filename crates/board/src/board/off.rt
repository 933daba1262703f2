// The keys read off the board.
ghost use Rattle.std.specs.Prelude.{◌≡◌, length, Err};
ghost use Rattle.keys.specs.declared.refusal.Refusal.{Refusal};
ghost use Rattle.rules.specs.Queues.{given};
ghost use Rattle.rules.specs.ReadOff.{keys_listed};
ghost use Rattle.reading.specs.Promises.{Rising, keys_answer, keys_after};
ghost use Rattle.board.specs.Of.{board_state};

use super::Board;
use keys::{Key, Refusal};
use tallies::Tally;

impl<'a, K: Key, T: Tally<K>> Board<'a, K, T> {
    // The keys under the gate to the front of a row; how many. What the work row holds afterwards is free.
    pub fn read_keys(&self, row: &mut [K::Fields], work: &mut [u16]) -> Result<usize, Refusal>
        ensures answer { Rising (board_state K.Key T.Tally self.now) → result ≡ keys_answer (length (keys_listed (board_state K.Key T.Tally self.now))) (length row.old) (length work.old) (given (board_state K.Key T.Tally self.now)) }
        ensures after { Rising (board_state K.Key T.Tally self.now) → row.new ≡ keys_after K.Key.parts (keys_listed (board_state K.Key T.Tally self.now)) row.old (length work.old) (given (board_state K.Key T.Tally self.now)) }
        ensures kept { (e : Refusal) → result ≡ Err e → row.new ≡ row.old }
    {
        let cells = &*self.cells;
        reading::read_keys::<K, T>(cells, self.count, self.gate, row, work)
    }
}
