// The last word on a key in a queue.
ghost use Rattle.std.specs.Prelude.{◌≡◌, max};
ghost use Rattle.rules.specs.Carries.{last_word};
ghost use Rattle.rules.specs.Kinds.{kinds_of};
ghost use Rattle.rules.specs.Sound.{Sound};
ghost use Rattle.board.specs.Of.{board_state};
ghost use Rattle.queues.specs.Chosen.{chosen_by};
ghost use Rattle.queues.specs.Words.{word_on, word_held};

use super::held::held_at;
use board::Board;
use keys::{Key, is_same};
use requests::{Request, Station};
use tallies::Tally;

// What the last enter or withdraw of a key in a place's queue says: whether the key is present after it.
pub fn last_word<K: Key, T: Tally<K>>(board: &Board<'_, K, T>, key: K, place: u16) -> Option<bool>
    ensures { Sound (board_state K.Key T.Tally board.now) → result ≡ last_word (kinds_of K.Key T.Tally) (board_state K.Key T.Tally board.now).requests key ((board_state K.Key T.Tally board.now).queue place) }
{
    word_on(board, key, last_held(board, key, place)?)
}

// The last request that enters or withdraws a key in a place's queue.
fn last_held<K: Key, T: Tally<K>>(board: &Board<'_, K, T>, key: K, place: u16) -> Option<u16>
    ensures { result ≡ chosen_by max (word_held (kinds_of K.Key T.Tally) (board_state K.Key T.Tally board.now) key place) 8 }
{
    Station::all()
        .iter()
        .filter_map(|station| held_word(board, key, *station, place))
        .max()
}

// The request that a station holds, if it waits at a place and enters or withdraws a key.
fn held_word<K: Key, T: Tally<K>>(
    board: &Board<'_, K, T>,
    key: K,
    station: Station,
    place: u16,
) -> Option<u16>
    ensures { result ≡ word_held (kinds_of K.Key T.Tally) (board_state K.Key T.Tally board.now) key place station.number }
{
    let number = held_at(board, station, place)?;
    word_on(board, key, number).map(|_| number)
}

// What a request says of a key, if it enters or withdraws it.
fn word_on<K: Key, T: Tally<K>>(board: &Board<'_, K, T>, key: K, number: u16) -> Option<bool>
    ensures { result ≡ word_on (kinds_of K.Key T.Tally) (board_state K.Key T.Tally board.now).requests key number }
{
    match board.request(number)? {
        Request::Enter(own) if is_same(key, own) => Some(true),
        Request::Withdraw(own) if is_same(key, own) => Some(false),
        _ => None,
    }
}
