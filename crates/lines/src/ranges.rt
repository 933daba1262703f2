// The range of signals, checked last: a form all of whose routes are keys is a call.
ghost use Rattle.std.specs.Prelude.{◌≡◌};
ghost use Rattle.lines.specs.Readings.{request_checked, form_checked};

use super::call::Call;
use keys::{Refusal, Route};
use requests::Request;
use words::RouteWords;

// Kept as a match: a request is another crate's type, so it has no TryFrom here; over a closure the contract says less plainly what comes out.
fn checked_request(request: Request<RouteWords>) -> Result<Request<Route>, Refusal>
    ensures { result ≡ request_checked request }
{
    match request {
        Request::Enter(words) => Ok(Request::Enter(words.route()?)),
        Request::Withdraw(words) => Ok(Request::Withdraw(words.route()?)),
        Request::LookUp(words) => Ok(Request::LookUp(words.route()?)),
        Request::Count(lo, hi) => {
            let lo = lo.route()?;
            let hi = hi.route()?;
            Ok(Request::Count(lo, hi))
        }
    }
}

impl TryFrom<Call<RouteWords>> for Call<Route> {
    type Error = Refusal;

    ghost try_from_gives = { λ form r. r ≡ form_checked form };

    fn try_from(form: Call<RouteWords>) -> Result<Self, Refusal> {
        match form {
            Call::Submit { station, request } => {
                let request = checked_request(request)?;
                Ok(Call::Submit { station, request })
            }
            Call::Follow { station, request } => Ok(Call::Follow { station, request }),
            Call::Carry { station } => Ok(Call::Carry { station }),
            Call::Collect { station } => Ok(Call::Collect { station }),
        }
    }
}
