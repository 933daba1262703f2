// Counts the routes on standard input, one to a line, and prints the report on them.
#![tactic(auto)]

use route_count::report;
use std::io;
use std::io::Read;

fn main(rt: HostRuntime) -> io::Result<()> {
    let mut text = Vec::new(rt.alloc());
    rt.stdin().read_to_end(&mut text)?;
    let written = report(rt.alloc(), &text)?;
    rt.print(written.as_str())
}
