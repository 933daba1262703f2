// What is kept of a request for good: the station, the request, and its answer once there is one.
ghost use Rattle.std.specs.Prelude.{◌≡◌, true};
ghost use Rattle.requests.specs.Fits.{fits};

use super::answer::Answer;
use super::request::Request;
use super::station::Station;

mod calls;

// Kept without Copy: it would be written by hand, since a derive is refused over the fact below, and a row is used once.
#[derive(PartialEq, Eq, Debug, Drop)]
pub struct Row<K, T> {
    station: Station,
    request: Request<K>,
    answer: Option<Answer<T>>,
    ghost answered: { fits request answer ≡ true },
}
