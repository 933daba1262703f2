// Making stations and reading their numbers.
ghost use Rattle.std.specs.Prelude.{◌≡◌, true, false, map, MatchResult, ◌+◌, ◌<◌};
ghost use Rattle.keys.specs.declared.refusal.Refusal.TheVariants.{NoStation};
ghost use Rattle.requests.specs.Stations.{is_station, station_numbers};

use super::Station;
use keys::Refusal;
use std::array::from_fn;

impl Station {
    // The station of that number, where there is one.
    // Kept: files hold the number in a byte and lines in more, so one `new` serves both better than a conversion from each.
    pub fn new(number: u32) -> Result<Station, Refusal>
        ensures { MatchResult result (λ s. (s.number ≡ number) × (is_station number ≡ true)) (λ e. (e ≡ NoStation) × (is_station number ≡ false)) }
    {
        if !(1..=8).contains(&number) {
            return Err(Refusal::NoStation);
        }
        Ok(Station {
            number: number as u8,
        })
    }

    // The eight stations, in the order of their numbers.
    pub fn all() -> [Station; 8]
        ensures { map (λ s. s.number) result ≡ station_numbers }
    {
        from_fn(
            |i: usize| -> Station
                requires { i < 8 }
                ensures { result.number ≡ i + 1 }
            {
                Station {
                    number: i as u8 + 1,
                }
            },
        )
    }

    // Kept: a getter of the field, by the name that clauses use.
    pub fn number(self) -> u8
        ensures { result ≡ self.number }
    {
        self.number
    }
}
