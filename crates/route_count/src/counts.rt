// Counting the routes of a text.
ghost use Rattle.std.specs.Prelude.{◌≡◌};
ghost use Rattle.route_count.specs.Rows.{readings};
ghost use Rattle.route_count.specs.Totals.{Counts, routes_weight, with_reading};

use super::lines::Lines;
use keys::{Refusal, Route};
use tallies::{Classes, Number, Pair, Tally};
use words::read_route;

// The tally with what was read of one line more.
fn counted(reading: Result<Route, Refusal>, total: Pair<Number, Classes>) -> Pair<Number, Classes>
    ensures { result ≡ with_reading reading total }
{
    match reading {
        Err(_) => total,
        Ok(route) => {
            let one: Pair<Number, Classes> = <Pair<_, _> as Tally<_>>::weight(route);
            one.join(total)
        }
    }
}

// The tally of all lines that are routes.
pub fn count(text: &[u8]) -> Pair<Number, Classes>
    ensures answer { result ≡ routes_weight (readings text.now) }
    ensures meaning { Counts (readings text.now) result }
{
    let mut total: Pair<Number, Classes> = <Pair<_, _> as Tally<_>>::zero();
    for line in Lines::new(text) {
        total = counted(read_route(line), total);
    }
    total
}
