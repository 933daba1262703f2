// Opens an archive of routes and numbers again and again, and prints how long one opening takes; once prints its rows.
#![tactic(auto)]

use anyhow::Context;
use archive::Archive;
use keys::Route;
use std::time::Instant;
use std::{env, fs};
use tallies::Number;

const USAGE: &str = "usage: archive_bench FILE TIMES";

// How many rows there are; none where the file has a fault.
// Kept as a number: they are added up.
fn rows(bytes: &[u8]) -> usize {
    Archive::<Route, Number>::open(bytes).map_or(0, |archive| archive.count())
}

// Opens the file so often, with another last byte each time, and adds the rows up.
fn again(bytes: &mut [u8], times: u32) -> usize {
    let mut all = 0usize;
    for i in 0..times {
        if let Some(last) = bytes.last_mut() {
            *last = (i % 256) as u8;
        }
        all = all.wrapping_add(rows(bytes));
    }
    all
}

fn main(rt: HostRuntime) -> anyhow::Result<()> {
    let mut args = env::args(&rt)?.skip(1);
    let path = args.next().context(USAGE)?;
    let times = args.next().context(USAGE)?.as_str().parse::<u32>()?;
    let mut bytes = fs::read(&rt, path.as_str())?;
    let start = Instant::now(&rt)?;
    let all = again(bytes.as_mut_slice(), times);
    let took = start.elapsed(&rt)?;
    if times == 1 {
        println!(rt; "rows {all}")?;
        return Ok(());
    }
    let nanoseconds = took.as_nanos();
    println!(rt; "{all} {nanoseconds}")?;
    Ok(())
}
