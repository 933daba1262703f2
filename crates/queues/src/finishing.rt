// How many requests are unfinished: at most one for each station.
ghost use Rattle.std.specs.Prelude.{◌≡◌, ◌==◌};
ghost use Rattle.rules.specs.ReadOff.{all_finished};
ghost use Rattle.rules.specs.Sound.{Sound};
ghost use Rattle.board.specs.Of.{board_state};
ghost use Rattle.queues.specs.Finishing.{unfinished_held, unfinished_in};

use super::waiting::waiting_place;
use board::Board;
use keys::Key;
use requests::Station;
use tallies::Tally;

// How many requests are unfinished.
pub fn unfinished<K: Key, T: Tally<K>>(board: &Board<'_, K, T>) -> u8
    ensures counted { Sound (board_state K.Key T.Tally board.now) → result ≡ unfinished_in (board_state K.Key T.Tally board.now) }
    ensures none { Sound (board_state K.Key T.Tally board.now) → all_finished (board_state K.Key T.Tally board.now) ≡ (result == 0) }
{
    Station::all()
        .iter()
        .filter(|station| holds_unfinished(board, **station))
        .count() as u8
}

// Whether the request that a station holds is unfinished.
fn holds_unfinished<K: Key, T: Tally<K>>(board: &Board<'_, K, T>, station: Station) -> bool
    ensures { Sound (board_state K.Key T.Tally board.now) → result ≡ unfinished_held (board_state K.Key T.Tally board.now) station.number }
{
    let Some(number) = board.uncollected(station) else {
        return false;
    };
    waiting_place(board, number).is_some()
}
