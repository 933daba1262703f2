// Lists files of each pair of kinds, and damaged ones.
#![tactic(auto)]

use listing::{KeyKind, TallyKind, list};
use std::fs;

fn one(rt: &HostRuntime, keys: &str, tallies: &str, path: &str) -> anyhow::Result<()> {
    println!(rt; "{keys} {tallies} {path}")?;
    let keys = keys.parse::<KeyKind>()?;
    let tallies = tallies.parse::<TallyKind>()?;
    let bytes = fs::read(rt, path)?;
    match list(rt.alloc(), keys, tallies, bytes.as_slice()) {
        None => println!(rt; "not of such keys")?,
        Some(text) => rt.print(text?.as_str())?,
    }
    Ok(())
}

fn whole(rt: &HostRuntime) -> anyhow::Result<()> {
    one(rt, "section", "number", "section.archive")?;
    one(rt, "area-section", "number", "area-section.archive")?;
    one(rt, "area-route", "number", "area-route.archive")?;
    one(rt, "route", "classes", "classes.archive")?;
    one(rt, "route", "number+classes", "pair.archive")?;
    one(rt, "section", "classes", "section.archive")?;
    one(rt, "area-route", "number+classes", "area-route.archive")
}

fn damaged(rt: &HostRuntime) -> anyhow::Result<()> {
    one(rt, "route", "number", "kind.damaged")?;
    one(rt, "route", "number", "key.damaged")?;
    one(rt, "route", "number", "second.damaged")?;
    one(rt, "route", "number", "code.damaged")?;
    one(rt, "route", "number", "tally.damaged")?;
    one(rt, "route", "number", "rows.damaged")?;
    one(rt, "route", "number", "short.damaged")?;
    one(rt, "section", "number", "area-section.archive")?;
    one(rt, "route", "classes", "pair.archive")
}

fn main(rt: HostRuntime) -> anyhow::Result<()> {
    whole(&rt)?;
    damaged(&rt)
}
