// Requests leave queues and join them.
ghost use Rattle.std.specs.Prelude.{◌≡◌};
ghost use Rattle.rules.specs.Changes.{with_queue, with_waiter};
ghost use Rattle.cells.specs.Joins.{Joinable};
ghost use Rattle.cells.specs.Rosters.{removed};
ghost use Rattle.board.specs.Of.{Turns, if_given};

use super::Board;
use cells::Cell;
use keys::Key;
use rules::Mode;
use tallies::Tally;

impl<'a, K: Key, T: Tally<K>> Board<'a, K, T> {
    // A request leaves a place's queue.
    pub fn leave(&mut self, number: u16, place: u16)
        ensures { Turns K.Key T.Tally self.old self.new (λ s s'. s' ≡ if_given s number (with_queue s place (removed number (s.queue place)))) }
    {
        self.change(
            number,
            |cell| Cell {
                waits: cell.waits.without(place),
                ..cell
            },
        );
    }

    // A request joins the end of a place's queue, where it may.
    pub fn join(&mut self, number: u16, place: u16, mode: Mode)
        ensures { Turns K.Key T.Tally self.old self.new (λ s s'. Joinable s number place mode → s' ≡ if_given s number (with_waiter s place number mode)) }
    {
        self.change(
            number,
            |cell| Cell {
                waits: cell.waits.with(place, mode),
                ..cell
            },
        );
    }
}
