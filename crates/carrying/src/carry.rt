// A carry, by the station's note, the head of the queue and the decision.
ghost use Rattle.std.specs.Prelude.{◌≡◌, List, ◌∷◌, Some, unwrap_or};
ghost use Rattle.requests.specs.declared.request.Request.{Request};
ghost use Rattle.rules.specs.Carries.{at_head, look, carried, sought, last_word};
ghost use Rattle.rules.specs.Kinds.{kinds_of};
ghost use Rattle.rules.specs.Queues.{numbered};
ghost use Rattle.rules.specs.Sound.{Sound};
ghost use Rattle.rules.specs.States.{Waiter};
ghost use Rattle.rules.specs.declared.mode.Mode.TheVariants.{Between};
ghost use Rattle.cells.specs.Rosters.{mode_at};
ghost use Rattle.board.specs.Cells.{waits_of};
ghost use Rattle.board.specs.Of.{board_state, Turns};
ghost use Rattle.carrying.specs.Notes.{gate_key};

use super::noted::{noted_asked, noted_decision, noted_head};
use super::slots::{be_late, decide, read_slot};
use board::Board;
use keys::Key;
use moving::move_head;
use queues::{last_word, mode_at};
use requests::{Request, Station};
use rules::{Carried, Mode, Note};
use tallies::Tally;

// The key that a request wants decided; a count has none.
fn sought_key<K: Key>(request: &Request<K>) -> Option<K>
    ensures { result ≡ sought request.now }
{
    match request {
        Request::Enter(key) | Request::Withdraw(key) | Request::LookUp(key) => Some(*key),
        Request::Count(_, _) => None,
    }
}

// The key that the head of a place's queue wants decided before it moves: at the gate, where it has no decision.
fn gate_key<K: Key>(place: u16, request: &Request<K>, decision: Option<bool>) -> Option<K>
    ensures { result ≡ gate_key place (sought request.now) decision }
{
    match (place, sought_key(request), decision) {
        (0, Some(key), None) => Some(key),
        (_, _, _) => None,
    }
}

// The mode in which the head of a place's queue waits there; between where the request does not wait there at all.
fn head_mode<K: Key, T: Tally<K>>(board: &Board<'_, K, T>, number: u16, place: u16) -> Mode
    ensures answer { result ≡ unwrap_or (mode_at (waits_of board.now number) place) Between }
    ensures head { (e : Waiter) (q : List Waiter) → (board_state K.Key T.Tally board.now).queue place ≡ e ∷ q → e.number ≡ number → result ≡ e.mode }
{
    mode_at(board, number, place).unwrap_or(Mode::Between)
}

// The head of a place's queue is decided at the gate if it must be, and else moved.
fn carry_head<K: Key, T: Tally<K>>(
    board: &mut Board<K, T>,
    station: Station,
    number: u16,
    place: u16,
    request: Request<K>,
) -> Carried
    ensures answer { (e : Waiter) → e.number ≡ number → result ≡ (at_head (kinds_of K.Key T.Tally) (board_state K.Key T.Tally board.old) station.number place e request).0 }
    ensures turns { Turns K.Key T.Tally board.old board.new (λ s s'. Sound s → (e : Waiter) (q : List Waiter) → s.queue place ≡ e ∷ q → e.number ≡ number → numbered s.requests number ≡ Some request → s' ≡ (at_head (kinds_of K.Key T.Tally) s station.number place e request).1) }
{
    match gate_key(place, &request, board.decision(number)) {
        Some(key) => {
            let gate = board.gate();
            read_slot(board, station, number, key, gate)
        }
        None => {
            let mode = head_mode(board, number, place);
            move_head(board, number, place, mode, request);
            board.set_note(station, Note::None);
            Carried::Moved
        }
    }
}

// The decision of a request is looked for at a place: among those who wait there, then in the slot on the key's side.
fn look_at<K: Key, T: Tally<K>>(
    board: &mut Board<K, T>,
    station: Station,
    number: u16,
    place: u16,
    key: K,
) -> Carried
    ensures answer { Sound (board_state K.Key T.Tally board.old) → result ≡ (look (kinds_of K.Key T.Tally) (board_state K.Key T.Tally board.old) station.number number place key (last_word (kinds_of K.Key T.Tally) (board_state K.Key T.Tally board.old).requests key ((board_state K.Key T.Tally board.old).queue place))).0 }
    ensures turns { Turns K.Key T.Tally board.old board.new (λ s s'. Sound s → (r : Request K) → numbered s.requests number ≡ Some r → s' ≡ (look (kinds_of K.Key T.Tally) s station.number number place key (last_word (kinds_of K.Key T.Tally) s.requests key (s.queue place))).1) }
{
    match last_word(board, key, place) {
        Some(present) => decide(board, station, number, present),
        None => {
            let slot = board.slot_for(place, key);
            read_slot(board, station, number, key, slot)
        }
    }
}

// A carry by the note of a station; without a note, or where it no longer holds, it is late.
pub fn carry_note<K: Key, T: Tally<K>>(board: &mut Board<K, T>, station: Station) -> Carried
    ensures answer { Sound (board_state K.Key T.Tally board.old) → result ≡ (carried (kinds_of K.Key T.Tally) (board_state K.Key T.Tally board.old) station.number ((board_state K.Key T.Tally board.old).desk station.number).note).0 }
    ensures turns { Turns K.Key T.Tally board.old board.new (λ s s'. Sound s → s' ≡ (carried (kinds_of K.Key T.Tally) s station.number (s.desk station.number).note).1) }
{
    let note = board.note(station);
    let first = noted_head(board, note);
    let decision = noted_decision(board, note);
    let asked = noted_asked(board, note);
    // Kept: the note's three cases are the rules' own, matched together with head and decision.
    match (note, first, decision, asked) {
        (Note::Saw { request, place }, Some(first), _, Some(asked)) if first == request => {
            carry_head(board, station, request, place, asked)
        }
        (Note::Walk { request, next }, _, None, Some(asked)) => match sought_key(&asked) {
            Some(key) => look_at(board, station, request, next, key),
            None => be_late(board, station),
        },
        (_, _, _, _) => be_late(board, station),
    }
}
