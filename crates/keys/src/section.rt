// A track section: a name of one to eight characters, held in eight bytes.
ghost use Rattle.std.specs.Prelude.{◌≡◌, true};
ghost use Rattle.keys.specs.Names.{is_section};

mod calls;
mod names;

#[derive(Clone, Copy, PartialEq, Eq, Debug)]
pub struct Section {
    // Kept: eight bytes and no String, since keys lie in lent memory without a heap.
    bytes: [u8; 8],
    ghost named: { is_section bytes ≡ true },
}
