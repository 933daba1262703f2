// The queues of a board that keeps no lists: who heads each, how, and what the last word on a key is.
// Kept as a premise: that the state shown is sound is no fact of a board's type, since it does not hold between the single
// changes of one carry, and a public call may ask nothing of its callers.
#![tactic(auto)]

mod finishing;
mod heads;
mod held;
mod waiting;
mod words;

pub use finishing::unfinished;
pub use heads::{head, mode_at};
pub use waiting::waiting_place;
pub use words::last_word;
