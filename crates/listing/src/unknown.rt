// A word that names no kind of key, or none of tally.
ghost use Rattle.std.specs.Prelude.{Some};
ghost use Rattle.listing.specs.Unknown.{unknown_text};

use std::error::Error;
use std::fmt;

#[derive(Clone, Copy, PartialEq, Eq, Debug)]
pub enum UnknownKind {
    Keys,
    Tallies,
}

impl fmt::Display for UnknownKind {
    ghost output = { λ unknown. Some (unknown_text unknown) };

    fn fmt<W: fmt::Write>(&self, f: &mut fmt::Formatter<W>) -> fmt::Result {
        f.write_str(match self {
            UnknownKind::Keys => "KEYS is route, section, area-route or area-section",
            UnknownKind::Tallies => "TALLIES is number, classes or number+classes",
        })
    }
}

impl Error for UnknownKind {}
