// What an enter and a withdraw do at a place, once they are decided to change it.
ghost use Rattle.std.specs.Prelude.{◌≡◌, Some};
ghost use Rattle.requests.specs.declared.request.Request.TheVariants.{Enter, Withdraw};
ghost use Rattle.rules.specs.Kinds.{kinds_of};
ghost use Rattle.rules.specs.Moves.{enter_at, withdraw_at, slot_for};
ghost use Rattle.rules.specs.Queues.{numbered};
ghost use Rattle.board.specs.Of.{Turns};
ghost use Rattle.moving.specs.Movable.{Passes};

use board::{Board, Met};
use cells::{Outcome, Slot};
use keys::Key;
use rules::Mode;
use tallies::Tally;

// An enter that left the queue of a place fills an empty slot, makes a place of a key's, or goes on to a place.
pub(super) fn enter<K: Key, T: Tally<K>>(board: &mut Board<K, T>, number: u16, place: u16, key: K)
    ensures { Turns K.Key T.Tally board.old board.new (λ s s'. numbered s.requests number ≡ Some (Enter key) → Passes (kinds_of K.Key T.Tally) s number place key → s' ≡ enter_at (kinds_of K.Key T.Tally) s number place key (slot_for (kinds_of K.Key T.Tally) s place key)) }
{
    let slot = board.slot_for(place, key);
    match board.met(slot) {
        Met::Nothing => {
            board.put_slot(place, key, Slot::Key(number));
            board.answer(number, Outcome::Changed);
        }
        Met::Key(name, _) => {
            board.put_slot(place, key, Slot::Place(number));
            board.make(number, name);
            board.answer(number, Outcome::Changed);
        }
        Met::Place(next) => {
            board.join_tally(next, T::weight(key));
            board.join(number, next, Mode::Between);
        }
    }
}

// A withdraw that left the queue of a place empties a key's slot, or goes on to a place.
pub(super) fn withdraw<K: Key, T: Tally<K>>(
    board: &mut Board<K, T>,
    number: u16,
    place: u16,
    key: K,
)
    ensures { Turns K.Key T.Tally board.old board.new (λ s s'. numbered s.requests number ≡ Some (Withdraw key) → Passes (kinds_of K.Key T.Tally) s number place key → s' ≡ withdraw_at (kinds_of K.Key T.Tally) s number place key (slot_for (kinds_of K.Key T.Tally) s place key)) }
{
    let slot = board.slot_for(place, key);
    match board.met(slot) {
        Met::Nothing => {}
        Met::Key(_, _) => {
            board.put_slot(place, key, Slot::Empty);
            board.answer(number, Outcome::Changed);
        }
        Met::Place(next) => {
            board.join_tally(next, T::weight(key).opposite());
            board.join(number, next, Mode::Between);
        }
    }
}
