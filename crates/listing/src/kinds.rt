// The words that name kinds of key and of tally.
ghost use Rattle.listing.specs.Kinds.{KeyKindOfWord, TallyKindOfWord};

use super::unknown::UnknownKind;
use std::str::FromStr;

#[derive(Clone, Copy, PartialEq, Eq, Debug)]
pub enum KeyKind {
    Routes,
    Sections,
    AreaRoutes,
    AreaSections,
}

impl FromStr for KeyKind {
    type Err = UnknownKind;

    ghost from_str_gives = { KeyKindOfWord };

    fn from_str(word: &str) -> Result<KeyKind, UnknownKind> {
        match word {
            "route" => Ok(KeyKind::Routes),
            "section" => Ok(KeyKind::Sections),
            "area-route" => Ok(KeyKind::AreaRoutes),
            "area-section" => Ok(KeyKind::AreaSections),
            _ => Err(UnknownKind::Keys),
        }
    }
}

#[derive(Clone, Copy, PartialEq, Eq, Debug)]
pub enum TallyKind {
    Numbers,
    ByClass,
    NumbersByClass,
}

// Kept beside the other: two sets of words, of which no word is in both.
impl FromStr for TallyKind {
    type Err = UnknownKind;

    ghost from_str_gives = { TallyKindOfWord };

    fn from_str(word: &str) -> Result<TallyKind, UnknownKind> {
        match word {
            "number" => Ok(TallyKind::Numbers),
            "classes" => Ok(TallyKind::ByClass),
            "number+classes" => Ok(TallyKind::NumbersByClass),
            _ => Err(UnknownKind::Tallies),
        }
    }
}
