// A damaged file for people: a line for the fault, and a sentence that says what was expected and what stands there.
ghost use Rattle.std.specs.Prelude.{◌≡◌, ◌≤◌, Some};
ghost use Rattle.listing.specs.FaultTexts.{place, fault_text};

use super::found::{Found, number_at};
use super::wanted::Wanted;
use archive::{Fault, HEADER_LENGTH, Layer};
use std::fmt;

// The bytes of a file, the widths of the kinds that it was opened with, and its first fault.
#[derive(Clone, Copy, PartialEq, Eq, Debug)]
pub struct Damage<'a> {
    pub bytes: &'a [u8],
    pub key: usize,
    pub tally: usize,
    pub fault: Fault,
    ghost widths: { (key ≤ 17) × (tally ≤ 17) },
}

impl<'a> Damage<'a> {
    // Where the wrong field starts, counted from the front of its row.
    fn place(&self) -> usize
        ensures { result ≡ place self.now.key self.now.tally self.now.bytes.now self.now.fault.layer self.now.fault.offset }
    {
        let offset = self.fault.offset;
        match self.fault.layer {
            Layer::Header => offset,
            Layer::Requests => offset.saturating_sub(HEADER_LENGTH) % (4 + 2 * self.key),
            Layer::Answers => {
                let start = number_at(self.bytes, 28) as usize;
                offset.saturating_sub(start) % (4 + self.tally)
            }
        }
    }
}

impl<'a> fmt::Display for Damage<'a> {
    ghost output = { λ d. Some (fault_text d.key d.tally d.bytes.now d.fault) };

    fn fmt<W: fmt::Write>(&self, f: &mut fmt::Formatter<W>) -> fmt::Result {
        let fault = self.fault;
        let offset = fault.offset;
        let wanted = Wanted::of(fault.refusal, self.place());
        let found = Found::at(fault.refusal, self.bytes, offset);
        write!(
            f,
            "{fault}\nexpected {wanted} at byte {offset}, found {found}\n"
        )
    }
}
