// The rules of the register: what its calls answer and leave, in specs/; the words that code and rules share, here.
#![tactic(auto)]

mod carried;
mod laws;
mod mode;
mod note;

pub use carried::Carried;
pub use laws::laws_stand;
pub use mode::Mode;
pub use note::Note;
