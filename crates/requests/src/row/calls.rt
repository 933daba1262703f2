// Making rows and reading them.
ghost use Rattle.std.specs.Prelude.{◌≡◌, true, false, MatchOption};
ghost use Rattle.requests.specs.Fits.{fits};

use super::super::answer::Answer;
use super::super::request::Request;
use super::super::station::Station;
use super::Row;

impl<K: Copy, T: Copy> Row<K, T> {
    // The row of these parts; none where the answer is not one that such a request gets.
    pub fn new(
        station: Station,
        request: Request<K>,
        answer: Option<Answer<T>>,
    ) -> Option<Row<K, T>>
        ensures { MatchOption result (fits request answer ≡ false) (λ w. (w.station ≡ station) × (w.request ≡ request) × (w.answer ≡ answer)) }
    {
        if let Some(given) = &answer {
            if !given.belongs_to(request.kind()) {
                return None;
            }
        }
        Some(Row {
            station,
            request,
            answer,
        })
    }

    pub fn station(&self) -> Station
        ensures { result ≡ self.now.station }
    {
        self.station
    }

    pub fn request(&self) -> Request<K>
        ensures { result ≡ self.now.request }
    {
        self.request
    }

    // The answer, once there is one.
    pub fn answer(&self) -> Option<Answer<T>>
        ensures { result ≡ self.now.answer }
    {
        self.answer
    }
}
