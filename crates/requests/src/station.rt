// A station, by its number from 1 to 8.
ghost use Rattle.std.specs.Prelude.{◌≤◌};

mod calls;

#[derive(Clone, Copy, PartialEq, Eq, Debug)]
pub struct Station {
    number: u8,
    ghost known: { (1 ≤ number) × (number ≤ 8) },
}
