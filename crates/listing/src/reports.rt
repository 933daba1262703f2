// An archive for people: its rows, or its fault.
ghost use Rattle.std.specs.Prelude.{string_bytes};
ghost use Rattle.listing.specs.Reports.{Printing};
ghost use Rattle.listing.specs.Kinds.{Listed};

use super::faults::Damage;
use super::kinds::{KeyKind, TallyKind};
use super::rows::list_rows;
use archive::Archive;
use keys::{Area, Route, Section};
use printing::{PrintedKey, PrintedTally};
use std::alloc::{AllocError, Global};
use stored::{StoredKey, StoredTally};
use tallies::{Classes, Number, Pair};

// The report on a file of keys of the kind K and tallies of the kind T.
pub fn report<K: PrintedKey, T: PrintedTally<K>>(
    heap: Global,
    bytes: &[u8],
) -> Result<String, AllocError>
    ensures { Printing string_bytes K.StoredKey.form T.StoredTally.form K.PrintedKey.text T.PrintedTally.text bytes.now result }
{
    match Archive::<K, T>::open(bytes) {
        Ok(archive) => list_rows::<K, T>(heap, &archive),
        Err(fault) => {
            let damage = Damage {
                bytes,
                key: K::width(),
                tally: T::width(),
                fault,
            };
            format!(in heap; "{damage}")
        }
    }
}

// The report on a file of keys and tallies of the kinds named; none where the tallies are not of such keys.
pub fn list(
    heap: Global,
    keys: KeyKind,
    tallies: TallyKind,
    bytes: &[u8],
) -> Option<Result<String, AllocError>>
    ensures { Listed string_bytes keys tallies bytes.now result }
{
    // Kept: a closed table from two words to types; a function chosen by it would have to be handed out.
    match (keys, tallies) {
        (KeyKind::Routes, TallyKind::Numbers) => Some(report::<Route, Number>(heap, bytes)),
        (KeyKind::Routes, TallyKind::ByClass) => Some(report::<Route, Classes>(heap, bytes)),
        (KeyKind::Routes, TallyKind::NumbersByClass) => Some(report::<Route, Pair<Number, Classes>>(
            heap, bytes,
        )),
        (KeyKind::Sections, TallyKind::Numbers) => Some(report::<Section, Number>(heap, bytes)),
        (KeyKind::AreaRoutes, TallyKind::Numbers) => Some(report::<Area<Route>, Number>(
            heap, bytes,
        )),
        (KeyKind::AreaSections, TallyKind::Numbers) => Some(report::<Area<Section>, Number>(
            heap, bytes,
        )),
        (
            KeyKind::Sections | KeyKind::AreaRoutes | KeyKind::AreaSections,
            TallyKind::ByClass | TallyKind::NumbersByClass,
        ) => None,
    }
}
