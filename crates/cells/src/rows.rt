// Rows by number, from 1.
ghost use Rattle.std.specs.Prelude.{◌≡◌};
ghost use Rattle.std.specs.Option.{option_map};
ghost use Rattle.rules.specs.Queues.{numbered};

// The entry of that number; none where no entry has it.
pub fn numbered<X>(row: &[X], number: u16) -> Option<&X>
    ensures { option_map (λ x. x.now) result ≡ numbered row.now number }
{
    row.get(usize::from(number).checked_sub(1)?)
}
