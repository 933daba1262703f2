// What a station's note speaks of, and what the board knows of that.
ghost use Rattle.std.specs.Prelude.{◌≡◌};
ghost use Rattle.std.specs.Option.{option_and_then};
ghost use Rattle.rules.specs.Queues.{head_of, numbered};
ghost use Rattle.rules.specs.Sound.{Sound};
ghost use Rattle.board.specs.Of.{board_state};
ghost use Rattle.carrying.specs.Notes.{note_request, note_place};

use board::Board;
use keys::Key;
use queues::head;
use requests::Request;
use rules::Note;
use tallies::Tally;

// The request that a note speaks of, and its place; none where there is no note.
// Kept: two questions of a note; a pair would be taken apart again at each use.
fn noted_request(note: Note) -> Option<u16>
    ensures { result ≡ note_request note }
{
    match note {
        Note::None => None,
        Note::Saw { request, .. } | Note::Walk { request, .. } => Some(request),
    }
}

fn noted_place(note: Note) -> Option<u16>
    ensures { result ≡ note_place note }
{
    match note {
        Note::None => None,
        Note::Saw { place, .. } => Some(place),
        Note::Walk { next, .. } => Some(next),
    }
}

// The head of the queue at the note's place, and the decision and the request that the note is about.
pub(super) fn noted_head<K: Key, T: Tally<K>>(board: &Board<'_, K, T>, note: Note) -> Option<u16>
    ensures { Sound (board_state K.Key T.Tally board.now) → result ≡ option_and_then (λ p. head_of ((board_state K.Key T.Tally board.now).queue p)) (note_place note) }
{
    head(board, noted_place(note)?)
}

pub(super) fn noted_decision<K: Key, T: Tally<K>>(
    board: &Board<'_, K, T>,
    note: Note,
) -> Option<bool>
    ensures { result ≡ option_and_then (board_state K.Key T.Tally board.now).decision (note_request note) }
{
    board.decision(noted_request(note)?)
}

pub(super) fn noted_asked<K: Key, T: Tally<K>>(
    board: &Board<'_, K, T>,
    note: Note,
) -> Option<Request<K>>
    ensures { result ≡ option_and_then (numbered (board_state K.Key T.Tally board.now).requests) (note_request note) }
{
    board.request(noted_request(note)?)
}
