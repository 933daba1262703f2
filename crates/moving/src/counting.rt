// What a count does at a place.
ghost use Rattle.std.specs.Prelude.{◌≡◌, ℕ, Some};
ghost use Rattle.requests.specs.declared.request.Request.TheVariants.{Count};
ghost use Rattle.rules.specs.Kinds.{kinds_of};
ghost use Rattle.rules.specs.Moves.{shown, count_at};
ghost use Rattle.rules.specs.Queues.{numbered};
ghost use Rattle.rules.specs.States.{leads};
ghost use Rattle.cells.specs.Joins.{Joinable};
ghost use Rattle.board.specs.Cells.{slot_of};
ghost use Rattle.board.specs.Of.{Turns};
ghost use Rattle.moving.specs.Movable.{Counts};

use super::span::Span;
use board::{Board, Met};
use cells::{Side, Slot};
use keys::{Key, is_below};
use rules::Mode;
use tallies::Tally;

// A count is shown a slot in a mode: it adds the key's weight if it wants it, or waits at the place.
fn show<K: Key, T: Tally<K>>(
    board: &mut Board<K, T>,
    number: u16,
    span: Span<K>,
    mode: Mode,
    slot: Slot,
)
    ensures { Turns K.Key T.Tally board.old board.new (λ s s'. numbered s.requests number ≡ Some (Count span.lo span.hi) → ((f : ℕ) → slot_of K.Key T.Tally board.old slot ≡ leads f → Joinable s number f mode) → s' ≡ shown (kinds_of K.Key T.Tally) s number span.lo span.hi mode (slot_of K.Key T.Tally board.old slot)) }
{
    match board.met(slot) {
        Met::Nothing => {}
        Met::Key(_, key) => {
            if span.wants::<T>(mode, key) {
                board.add(number, T::weight(key));
            } else {
                board.add(number, T::zero());
            }
        }
        Met::Place(place) => board.join(number, place, mode),
    }
}

// A count that left the queue of a place goes on from there, by its mode and where its ends lie against the split.
pub(super) fn count_at<K: Key, T: Tally<K>>(
    board: &mut Board<K, T>,
    number: u16,
    place: u16,
    span: Span<K>,
    mode: Mode,
)
    ensures { Turns K.Key T.Tally board.old board.new (λ s s'. numbered s.requests number ≡ Some (Count span.lo span.hi) → Counts s number place mode → s' ≡ count_at (kinds_of K.Key T.Tally) s number place span.lo span.hi mode) }
{
    if place == 0 {
        let gate = board.gate();
        show(board, number, span, Mode::Between, gate);
        return;
    }
    let Some(split) = board.split(place) else {
        return;
    };
    let left = board.slot(place, Side::Left);
    let right = board.slot(place, Side::Right);
    match mode {
        Mode::Between => {
            if split.at_most(span.lo) {
                show(board, number, span, Mode::Between, right);
            } else if is_below(span.hi, split) {
                show(board, number, span, Mode::Between, left);
            } else {
                show(board, number, span, Mode::From, left);
                show(board, number, span, Mode::Upto, right);
            }
        }
        Mode::From => {
            if split.at_most(span.lo) {
                show(board, number, span, Mode::From, right);
            } else {
                let whole = board.whole(right);
                board.add(number, whole);
                show(board, number, span, Mode::From, left);
            }
        }
        Mode::Upto => {
            if is_below(span.hi, split) {
                show(board, number, span, Mode::Upto, left);
            } else {
                let whole = board.whole(left);
                board.add(number, whole);
                show(board, number, span, Mode::Upto, right);
            }
        }
    }
}
