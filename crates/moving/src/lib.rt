// Requests moved: what an enter, a withdraw, a look-up and a count do at a place whose queue they head.
#![tactic(auto)]

mod counting;
mod heads;
mod scalars;
mod span;

pub use heads::move_head;
