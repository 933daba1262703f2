// What a carry does by the station's note.
#![tactic(auto)]

mod carry;
mod noted;
mod slots;

pub use carry::carry_note;
