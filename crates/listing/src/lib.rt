// Archives listed for people: rows and faults as text.
#![tactic(auto)]

mod faults;
mod found;
mod kinds;
mod reports;
mod rows;
mod unknown;
mod wanted;

pub use kinds::{KeyKind, TallyKind};
pub use reports::{list, report};
pub use rows::list_rows;
pub use unknown::UnknownKind;
