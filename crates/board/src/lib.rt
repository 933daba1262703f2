// The board that a register works on: its cells, its gate and its desks, read and changed one thing at a time.
#![tactic(auto)]

mod board;
mod met;

pub use board::Board;
pub use met::Met;
