// Kinds of key and of tally that rows of bytes hold: their widths, and putting and getting them.
#![tactic(auto)]

mod area;
mod classes;
mod key;
mod number;
mod pair;
mod route;
mod section;
mod tally;
mod width;

pub use key::StoredKey;
pub use tally::StoredTally;
pub use width::WIDEST;
