// Lists an archive for people: archive_list KEYS TALLIES FILE.
#![tactic(auto)]

use anyhow::Context;
use listing::{KeyKind, TallyKind, list};
use std::{env, fs};

const USAGE: &str = "usage: archive_list KEYS TALLIES FILE";

fn main(rt: HostRuntime) -> anyhow::Result<()> {
    let mut args = env::args(&rt)?.skip(1);
    let keys = args.next().context(USAGE)?;
    let tallies = args.next().context(USAGE)?;
    let path = args.next().context(USAGE)?;
    let keys = keys.as_str().parse::<KeyKind>()?;
    let tallies = tallies.as_str().parse::<TallyKind>()?;
    let bytes = fs::read(&rt, path.as_str())
        .ok()
        .context("the file cannot be opened")?;
    let text = list(rt.alloc(), keys, tallies, bytes.as_slice()).context(
        "classes are counted of routes only",
    )??;
    rt.print(text.as_str())?;
    Ok(())
}
