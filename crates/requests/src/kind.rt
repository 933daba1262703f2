// The four kinds of request, and their numbers.
ghost use Rattle.std.specs.Prelude.{◌≡◌};
ghost use Rattle.requests.specs.Kinds.{kind_number, KindOfNumber};

use keys::Refusal;

#[derive(Clone, Copy, PartialEq, Eq, Debug)]
pub enum Kind {
    Enter,
    Withdraw,
    LookUp,
    Count,
}

impl From<Kind> for u8 {
    ghost from_gives = { λ kind number. number ≡ kind_number kind };

    fn from(kind: Kind) -> u8 {
        match kind {
            Kind::Enter => 1,
            Kind::Withdraw => 2,
            Kind::LookUp => 3,
            Kind::Count => 4,
        }
    }
}

// The kind of that number; a row has no other.
impl TryFrom<u8> for Kind {
    type Error = Refusal;

    ghost try_from_gives = { KindOfNumber };

    fn try_from(number: u8) -> Result<Kind, Refusal> {
        match number {
            1 => Ok(Kind::Enter),
            2 => Ok(Kind::Withdraw),
            3 => Ok(Kind::LookUp),
            4 => Ok(Kind::Count),
            _ => Err(Refusal::RequestRow),
        }
    }
}
