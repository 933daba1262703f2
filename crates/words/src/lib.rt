// Reading the words of a line: numbers, class letters, and a route as three words.
#![tactic(auto)]

mod letters;
mod numbers;
mod routes;

pub use letters::class_letter;
pub use numbers::number;
pub use routes::{RouteWords, last_route, next_route, read_route, route_words};
