// The head of a queue moved.
ghost use Rattle.std.specs.Prelude.{◌≡◌, ℕ, List, ◌∷◌, Some};
ghost use Rattle.rules.specs.Kinds.{kinds_of};
ghost use Rattle.rules.specs.Moves.{moved};
ghost use Rattle.rules.specs.Queues.{numbered};
ghost use Rattle.rules.specs.Sound.{Sound};
ghost use Rattle.rules.specs.States.{Waiter};
ghost use Rattle.board.specs.Of.{Turns};

use super::counting::count_at;
use super::scalars::{enter, withdraw};
use super::span::Span;
use board::Board;
use cells::Outcome;
use keys::Key;
use requests::Request;
use rules::Mode;
use tallies::Tally;

// The head of a place's queue, a request in a mode, leaves it and does there what it is to do.
pub fn move_head<K: Key, T: Tally<K>>(
    board: &mut Board<K, T>,
    number: u16,
    place: u16,
    mode: Mode,
    request: Request<K>,
)
    ensures { Turns K.Key T.Tally board.old board.new (λ s s'. Sound s → (e : Waiter) (q : List Waiter) → s.queue place ≡ e ∷ q → e.number ≡ number → e.mode ≡ mode → numbered s.requests number ≡ Some request → s' ≡ moved (kinds_of K.Key T.Tally) s place e request) }
{
    // A decision that is missing counts as absent.
    let present = board.decision(number).unwrap_or(false);
    board.leave(number, place);
    match request {
        Request::Enter(_) if present => board.answer(number, Outcome::Unchanged),
        Request::Enter(key) => enter(board, number, place, key),
        Request::Withdraw(key) if present => withdraw(board, number, place, key),
        Request::Withdraw(_) => board.answer(number, Outcome::Unchanged),
        Request::LookUp(_) if present => board.answer(number, Outcome::Present),
        Request::LookUp(_) => board.answer(number, Outcome::Absent),
        Request::Count(lo, hi) => count_at(board, number, place, Span { lo, hi }, mode),
    }
}
