// The form that the words of a line are: read from the front, with none left over.
ghost use Rattle.std.specs.Prelude.{◌≡◌};
ghost use Rattle.octets.specs.Cuts.{pieces};
ghost use Rattle.words.specs.Lines.{left};
ghost use Rattle.lines.specs.Forms.{at_end, last_number, count_in, request_in, asked_in, call_in, row_form};

use super::call::Call;
use super::vocabulary::{Verb, kind_in, verb_in};
use octets::Pieces;
use requests::{Kind, Request};
use words::{RouteWords, last_route, next_route, number};

// What was read, where no word is left.
fn at_end<T: Drop>(mut words: Pieces<'_>, read: T) -> Option<T>
    ensures { result ≡ at_end (left words.entry) read }
{
    words.next().is_none().then_some(read)
}

// The number that the only word left is.
fn last_number(mut words: Pieces<'_>) -> Option<u32>
    ensures { result ≡ last_number (left words.entry) }
{
    let number = number(words.next()?)?;
    at_end(words, number)
}

// The count whose two routes are all the words left.
fn count_in(mut words: Pieces<'_>) -> Option<Request<RouteWords>>
    ensures { result ≡ count_in (left words.entry) }
{
    let lo = next_route(&mut words)?;
    let hi = last_route(words)?;
    Some(Request::Count(lo, hi))
}

// The request of that kind whose keys are all the words left.
fn request_in(kind: Kind, words: Pieces<'_>) -> Option<Request<RouteWords>>
    ensures { result ≡ request_in kind (left words.entry) }
{
    match kind {
        Kind::Enter => last_route(words).map(Request::Enter),
        Kind::Withdraw => last_route(words).map(Request::Withdraw),
        Kind::LookUp => last_route(words).map(Request::LookUp),
        Kind::Count => count_in(words),
    }
}

// The request that all the words left are, its kind the first of them.
fn asked_in(mut words: Pieces<'_>) -> Option<Request<RouteWords>>
    ensures { result ≡ asked_in (left words.entry) }
{
    let kind = kind_in(words.next()?)?;
    request_in(kind, words)
}

// The form of that call by that station, of which all the words left are the rest.
fn call_in(verb: Verb, station: u32, words: Pieces<'_>) -> Option<Call<RouteWords>>
    ensures { result ≡ call_in verb station (left words.entry) }
{
    match verb {
        Verb::Submit => {
            let request = asked_in(words)?;
            Some(Call::Submit { station, request })
        }
        Verb::Follow => {
            let request = last_number(words)?;
            Some(Call::Follow { station, request })
        }
        Verb::Carry => at_end(words, Call::Carry { station }),
        Verb::Collect => at_end(words, Call::Collect { station }),
    }
}

// The form that a line is.
pub fn line_form(line: &[u8]) -> Option<Call<RouteWords>>
    ensures { result ≡ row_form (pieces 32 line.now) }
{
    let mut words = Pieces::new(line, b' ');
    let first = words.next()?;
    let second = words.next()?;
    let verb = verb_in(first)?;
    let station = number(second)?;
    call_in(verb, station, words)
}
