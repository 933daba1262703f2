// The report on a text of routes.
ghost use Rattle.std.specs.Prelude.{◌≡◌, IfOk, string_bytes};
ghost use Rattle.route_count.specs.Reports.{refused_line, refused_lines, totals_text, report_on};
ghost use Rattle.route_count.specs.Rows.{readings};

use super::counts::count;
use super::lines::Lines;
use keys::{Class, Refusal};
use std::alloc::{AllocError, Global};
use tallies::{Classes, Number, Pair};
use words::read_route;

// What is written of one line that was refused.
fn refused_line(heap: Global, number: usize, refusal: Refusal) -> Result<String, AllocError>
    ensures { IfOk result (λ s. string_bytes s ≡ refused_line number refusal) }
{
    format!(in heap; "line {number} refused {refusal}\n")
}

// What is written of the routes.
fn totals(heap: Global, tally: Pair<Number, Classes>) -> Result<String, AllocError>
    ensures { IfOk result (λ s. string_bytes s ≡ totals_text tally) }
{
    let routes = tally.first.value();
    let m = tally.second.count(Class::M);
    let w = tally.second.count(Class::W);
    let c = tally.second.count(Class::C);
    let s = tally.second.count(Class::S);
    format!(in heap; "routes {routes}\nclass M {m}\nclass W {w}\nclass C {c}\nclass S {s}\n")
}

// What is written of all lines that are no routes.
fn refused_lines(heap: Global, text: &[u8]) -> Result<String, AllocError>
    ensures { IfOk result (λ s. string_bytes s ≡ refused_lines 1 (readings text.now)) }
{
    let mut written = String::new(heap);
    for (index, line) in Lines::new(text).enumerate() {
        if let Err(refusal) = read_route(line) {
            let note = refused_line(heap, index + 1, refusal)?;
            written.push_str(note.as_str())?;
        }
    }
    Ok(written)
}

// The report on a text of routes, one to a line.
pub fn report(heap: Global, text: &[u8]) -> Result<String, AllocError>
    ensures { IfOk result (λ s. string_bytes s ≡ report_on (readings text.now)) }
{
    let mut written = refused_lines(heap, text)?;
    let last = totals(heap, count(text))?;
    written.push_str(last.as_str())?;
    Ok(written)
}
