// A note dropped, and a slot read for the decision of a request.
// Kept: board and station are two parameters; in one struct the lent board would be named through it in every contract.
ghost use Rattle.std.specs.Prelude.{◌≡◌, Some};
ghost use Rattle.requests.specs.declared.request.Request.{Request};
ghost use Rattle.rules.specs.Carries.{late, decided, read_slot};
ghost use Rattle.rules.specs.Kinds.{kinds_of};
ghost use Rattle.rules.specs.Queues.{numbered};
ghost use Rattle.board.specs.Cells.{slot_of};
ghost use Rattle.board.specs.Of.{board_state, Turns};

use board::{Board, Met};
use cells::Slot;
use keys::{Key, is_same};
use requests::Station;
use rules::{Carried, Note};
use tallies::Tally;

// What the note says no longer holds: it is dropped.
pub(super) fn be_late<K: Key, T: Tally<K>>(board: &mut Board<K, T>, station: Station) -> Carried
    ensures answer { result ≡ (late (kinds_of K.Key T.Tally) (board_state K.Key T.Tally board.old) station.number).0 }
    ensures turns { Turns K.Key T.Tally board.old board.new (λ s s'. s' ≡ (late (kinds_of K.Key T.Tally) s station.number).1) }
{
    board.set_note(station, Note::None);
    Carried::Late
}

// The decision of a request is written, and the note dropped.
pub(super) fn decide<K: Key, T: Tally<K>>(
    board: &mut Board<K, T>,
    station: Station,
    number: u16,
    present: bool,
) -> Carried
    ensures answer { result ≡ (decided (kinds_of K.Key T.Tally) (board_state K.Key T.Tally board.old) station.number number present).0 }
    ensures turns { Turns K.Key T.Tally board.old board.new (λ s s'. (r : Request K) → numbered s.requests number ≡ Some r → s' ≡ (decided (kinds_of K.Key T.Tally) s station.number number present).1) }
{
    board.decide(number, present);
    board.set_note(station, Note::None);
    Carried::Decided
}

// A slot read for a request and its key: it decides, or leads the walk one place on.
pub(super) fn read_slot<K: Key, T: Tally<K>>(
    board: &mut Board<K, T>,
    station: Station,
    number: u16,
    key: K,
    slot: Slot,
) -> Carried
    ensures answer { result ≡ (read_slot (kinds_of K.Key T.Tally) (board_state K.Key T.Tally board.old) station.number number key (slot_of K.Key T.Tally board.old slot)).0 }
    ensures turns { Turns K.Key T.Tally board.old board.new (λ s s'. (r : Request K) → numbered s.requests number ≡ Some r → s' ≡ (read_slot (kinds_of K.Key T.Tally) s station.number number key (slot_of K.Key T.Tally board.old slot)).1) }
{
    match board.met(slot) {
        Met::Nothing => decide(board, station, number, false),
        Met::Key(_, held) => decide(board, station, number, is_same(held, key)),
        Met::Place(next) => {
            board.set_note(
                station,
                Note::Walk {
                    request: number,
                    next,
                },
            );
            Carried::Walking
        }
    }
}
