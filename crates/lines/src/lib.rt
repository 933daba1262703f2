// Reading a line of the console: the call that it means, or why it means none.
#![tactic(auto)]

mod call;
mod forms;
mod ranges;
mod reading;
mod vocabulary;

pub use call::Call;
pub use reading::{grammar_stands, read_line};
