// The call that a line of the console is.
ghost use Rattle.std.specs.Prelude.{◌≡◌};
ghost use Rattle.lines.specs.Readings.{line_call};
ghost use Rattle.lines.specs.Meaning.{Reads, EveryCallHasALine, OneForm};

use super::call::Call;
use super::forms::line_form;
use keys::{Refusal, Route};

const LONGEST_LINE: usize = 64;

// The call that a line is: no such line where it is the text of no form, out of range where a number of a route is no
// signal.
pub fn read_line(line: &[u8]) -> Result<Call<Route>, Refusal>
    ensures answer { result ≡ line_call line.now }
    ensures meaning { Reads line.now result }
{
    if line.len() > LONGEST_LINE {
        return Err(Refusal::NoSuchLine);
    }
    let form = line_form(line).ok_or(Refusal::NoSuchLine)?;
    Call::try_from(form)
}

// Every call whose numbers have at most five digits has a line, and no line is the text of two forms.
pub fn grammar_stands()
    ensures every { EveryCallHasALine }
    ensures one { OneForm }
{}
