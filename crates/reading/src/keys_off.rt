// The keys under the gate: counted first, so that a refusal leaves the row, and then written.
ghost use Rattle.std.specs.Prelude.{◌≡◌, ◌≤◌, List, length, take, Err};
ghost use Rattle.cells.specs.declared.desk.Desk.{Desk};
ghost use Rattle.cells.specs.Views.{state_shown};
ghost use Rattle.rules.specs.ReadOff.{keys_listed};
ghost use Rattle.reading.specs.Walks.{firsts_under};
ghost use Rattle.reading.specs.Promises.{Rising, counted_within, next_count, written_within, keys_over, keys_answer, keys_after};

use super::walk::Firsts;
use cells::{Cell, Slot};
use keys::{Key, Refusal};
use tallies::Tally;

// How many keys there are, unless they outnumber the room.
// Kept: cells, gate and work row are handed on once more, to the walk, which is the struct that holds them.
fn count_within<F: Copy, T: Copy>(
    live: &[Cell<F, T>],
    gate: Slot,
    room: usize,
    work: &mut [u16],
) -> Result<usize, Refusal>
    requires { length live.now ≤ length work.old }
    ensures { result ≡ counted_within room (length (firsts_under live.now gate)) }
{
    Firsts::new(live, gate, work).try_fold(
        0,
        |count: usize, _| -> Result<usize, Refusal>
            ensures { result ≡ next_count room count }
        {
            if count < room {
                Ok(count + 1)
            } else {
                Err(Refusal::TooShort)
            }
        },
    )
}

// Writes the keys to the front of a row that has room for them.
fn write_keys<K: Key, T: Copy>(
    live: &[Cell<K::Fields, T>],
    gate: Slot,
    row: &mut [K::Fields],
    work: &mut [u16],
)
    requires { (length live.now ≤ length work.old) × (length (firsts_under live.now gate) ≤ length row.old) }
    ensures { row.new ≡ keys_over (λ f. K.Key.parts (K.Key.made f)) (firsts_under live.now gate) row.old }
{
    for (i, first) in Firsts::new(live, gate, work).enumerate() {
        row[i] = K::from_fields(first).fields();
    }
}

// Counts the keys and then writes them, unless they outnumber the row.
fn read_live<K: Key, T: Copy>(
    live: &[Cell<K::Fields, T>],
    gate: Slot,
    row: &mut [K::Fields],
    work: &mut [u16],
) -> Result<usize, Refusal>
    requires { length live.now ≤ length work.old }
    ensures answer { result ≡ counted_within (length row.old) (length (firsts_under live.now gate)) }
    ensures after { row.new ≡ written_within (λ f. K.Key.parts (K.Key.made f)) (firsts_under live.now gate) row.old }
{
    let count = count_within(live, gate, row.len(), work)?;
    write_keys::<K, T>(live, gate, row, work);
    Ok(count)
}

// The cells of the requests that were submitted.
fn live_cells<F: Copy, T: Copy>(cells: &[Cell<F, T>], count: usize) -> &[Cell<F, T>]
    ensures { result.now ≡ take count cells.now }
{
    &cells[..count.min(cells.len())]
}

// The keys under the gate, left before right, to the front of a row; how many they are.
// A refusal leaves the row. The work row has a number for each request at least, and what it holds afterwards is free.
// Kept: a count past the cells has a promise too, so it can't be the length of a slice that callers pass.
pub fn read_keys<K: Key, T: Tally<K>>(
    cells: &[Cell<K::Fields, T>],
    count: usize,
    gate: Slot,
    row: &mut [K::Fields],
    work: &mut [u16],
) -> Result<usize, Refusal>
    ensures answer { (desks : List Desk) → Rising (state_shown K.Key T.Tally cells.now count gate desks) → result ≡ keys_answer (length (keys_listed (state_shown K.Key T.Tally cells.now count gate desks))) (length row.old) (length work.old) count }
    ensures after { (desks : List Desk) → Rising (state_shown K.Key T.Tally cells.now count gate desks) → row.new ≡ keys_after K.Key.parts (keys_listed (state_shown K.Key T.Tally cells.now count gate desks)) row.old (length work.old) count }
    ensures kept { (e : Refusal) → result ≡ Err e → row.new ≡ row.old }
{
    if work.len() < count {
        return Err(Refusal::TooShort);
    }
    read_live::<K, T>(live_cells(cells, count), gate, row, work)
}
