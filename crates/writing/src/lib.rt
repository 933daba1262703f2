// Writing an archive from any source of rows.
#![tactic(auto)]

mod again;
mod header;
mod layers;
mod of_archive;
mod part;
mod row_bytes;
mod source;
mod writer;

pub use again::write_again;
pub use source::Rows;
pub use writer::write;
