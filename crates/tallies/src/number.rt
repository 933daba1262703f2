// The number of keys, modulo 2^32.
ghost use Rattle.std.specs.Prelude.{◌<◌, ◌^◌};

mod calls;

#[derive(Clone, Copy, PartialEq, Eq, Debug)]
pub struct Number {
    value: u32,
    ghost fits: { value < 2 ^ 32 },
}
