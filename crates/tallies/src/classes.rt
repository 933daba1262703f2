// How many routes there are of each class, each modulo 2^16.
ghost use Rattle.std.specs.Prelude.{◌<◌, ◌^◌};

mod calls;

#[derive(Clone, Copy, PartialEq, Eq, Debug)]
pub struct Classes {
    m: u16,
    w: u16,
    c: u16,
    s: u16,
    ghost front: { (m < 2 ^ 16) × (w < 2 ^ 16) },
    ghost back: { (c < 2 ^ 16) × (s < 2 ^ 16) },
}
