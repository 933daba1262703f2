// Counting the routes of a whole text, one to a line, and the report on it.
#![tactic(auto)]

mod counts;
mod lines;
mod reports;

pub use counts::count;
pub use reports::report;
