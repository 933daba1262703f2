// Up to three rows of any kinds, to be written and damaged.
use keys::Refusal;
use requests::{Answer, Request, Row, Station};
use stored::{StoredKey, StoredTally};
use writing::Rows;

#[derive(PartialEq, Eq, Debug, Drop)]
pub struct Sample<K, T> {
    pub first: K,
    pub second: K,
    pub tally: T,
    pub rows: usize,
}

impl<K, T> Sample<K, T> {
    pub fn three(first: K, second: K, tally: T) -> Sample<K, T> {
        Sample {
            first,
            second,
            tally,
            rows: 3,
        }
    }
}

impl<K: StoredKey + Drop, T: StoredTally<K> + Drop> Rows<K, T> for Sample<K, T> {
    // Nothing is promised of a sample: the output is compared.
    ghost has = { λ _ _. ⊥ };

    fn count(&self) -> usize {
        self.rows.min(3)
    }

    fn row(&self, number: usize) -> Result<Row<K, T>, Refusal> {
        let first = self.first;
        let second = self.second;
        let tally = self.tally;
        let made = match number {
            1 => Row::new(
                Station::new(1)?,
                Request::Enter(first),
                Some(Answer::Changed),
            ),
            2 => Row::new(
                Station::new(8)?,
                Request::Count(first, second),
                Some(Answer::Counted(tally)),
            ),
            3 => Row::new(Station::new(3)?, Request::LookUp(first), None),
            _ => None,
        };
        made.ok_or(Refusal::NotGiven)
    }
}
