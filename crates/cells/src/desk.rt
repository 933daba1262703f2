// What a register keeps of a station: its note, and its request that is not collected yet.
use rules::Note;

#[derive(Clone, Copy, PartialEq, Eq, Debug)]
pub struct Desk {
    pub note: Note,
    pub uncollected: Option<u16>,
}
