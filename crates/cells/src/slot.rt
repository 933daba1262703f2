// A slot, by numbers: its key is named by the request that entered it, its place by its own number.
#[derive(Clone, Copy, PartialEq, Eq, Debug)]
pub enum Slot {
    // Kept as a case: the rules' slot has these three, and they are matched together.
    Empty,
    Key(u16),
    Place(u16),
}
