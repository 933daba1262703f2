// Stored kinds of key and of tally each of which is printed as a text.
#![tactic(auto)]

mod keys_text;
mod tallies_text;

pub use keys_text::PrintedKey;
pub use tallies_text::PrintedTally;
