// Kinds of key: the one question that a kind answers, its laws, three kinds, and the refusals.
#![tactic(auto)]

mod area;
mod class;
mod key;
mod order;
mod refusal;
mod route;
mod section;
mod texts;

pub use area::Area;
pub use class::Class;
pub use key::Key;
pub use order::{greater_of, is_below, is_same};
pub use refusal::Refusal;
pub use route::{Route, RouteFields};
pub use section::Section;
