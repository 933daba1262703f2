// Kinds of tally: a zero, a joining, an opposite and the weights of keys, with their laws; three kinds.
#![tactic(auto)]

mod classes;
mod number;
mod pair;
mod tally;
mod texts;

pub use classes::Classes;
pub use number::Number;
pub use pair::Pair;
pub use tally::Tally;
