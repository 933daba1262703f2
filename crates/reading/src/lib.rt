// Reading the keys off a row of cells, without recursion: a walk, which keeps its way down in a lent work row.
#![tactic(auto)]

mod keys_off;
mod slots;
mod walk;

pub use keys_off::read_keys;
