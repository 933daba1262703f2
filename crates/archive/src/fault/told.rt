// A fault as an error that is printed.
ghost use Rattle.std.specs.Prelude.{Some};
ghost use Rattle.archive.specs.Layers.{fault_told};

use super::Fault;
use std::error::Error;
use std::fmt;

// A fault is printed with its number, layer, row and offset.
impl fmt::Display for Fault {
    ghost output = { λ fault. Some (fault_told fault) };

    fn fmt<W: fmt::Write>(&self, f: &mut fmt::Formatter<W>) -> fmt::Result {
        let Fault {
            refusal,
            layer,
            row,
            offset,
        } = *self;
        write!(f, "fault {refusal} {layer} row {row} offset {offset}")
    }
}

impl Error for Fault {}
