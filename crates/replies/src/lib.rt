// Answers of the console as text, written to the front of a lent row of bytes.
#![tactic(auto)]

mod reply;
mod writing;

pub use reply::Reply;
pub use writing::put_reply;
