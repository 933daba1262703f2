// The archive: a file of requests and their answers, checked, read and handed out row by row.
#![tactic(auto)]

mod answer_rows;
mod checking;
mod decoding;
mod fault;
mod header;
mod layer;
mod layout;
mod opened;
mod request_rows;

pub use fault::Fault;
pub use layer::Layer;
pub use layout::{HEADER_LENGTH, Layout};
pub use opened::{Archive, Parts};
