// The cells that a register works in: what each holds, and the state of the rules that a row of them shows.
#![tactic(auto)]

mod cell;
mod desk;
mod outcome;
mod rows;
mod side;
mod slot;
mod waits;

pub use cell::Cell;
pub use desk::Desk;
pub use outcome::Outcome;
pub use rows::numbered;
pub use side::Side;
pub use slot::Slot;
pub use waits::Waits;
