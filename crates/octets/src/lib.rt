// Plain questions about bytes: where a byte first stands, whether all are one byte, and pieces between separators.
#![tactic(auto)]

mod pieces;
mod runs;

pub use pieces::Pieces;
pub use runs::{are_all, before, length_before};
