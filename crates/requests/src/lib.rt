// What stations ask of a register and what it answers: requests, answers, stations, and the rows that keep them.
#![tactic(auto)]

mod answer;
mod kind;
mod request;
mod row;
mod station;

pub use answer::Answer;
pub use kind::Kind;
pub use request::Request;
pub use row::Row;
pub use station::Station;
