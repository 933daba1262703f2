// Tries files of several kinds, whole and damaged.
#![tactic(auto)]

mod cases;
mod sample;

use cases::{cases, small};
use keys::{Area, Class, Route, Section};
use sample::Sample;
use std::io;
use tallies::{Classes, Number, Pair};

fn routes(rt: &HostRuntime, first: Route, second: Route) -> io::Result<()> {
    cases(
        rt,
        "route, number",
        &Sample::three(first, second, Number::new(2)),
    )?;
    cases(
        rt,
        "route, classes",
        &Sample::three(first, second, Classes::new(1, 2, 3, 4)),
    )?;
    let tally = Pair {
        first: Number::new(258),
        second: Classes::new(0, 0, 0, 513),
    };
    cases(
        rt,
        "route, number and classes",
        &Sample::three(first, second, tally),
    )?;
    let first = Area {
        number: 3,
        key: first,
    };
    let second = Area {
        number: 500,
        key: second,
    };
    cases(
        rt,
        "area over route, number",
        &Sample::three(first, second, Number::new(7)),
    )
}

// No row, and one.
fn few(rt: &HostRuntime, first: Route, second: Route) -> io::Result<()> {
    small(
        rt,
        &Sample {
            rows: 0,
            first,
            second,
            tally: Number::new(0),
        },
        32,
    )?;
    small(
        rt,
        &Sample {
            rows: 1,
            first,
            second,
            tally: Number::new(0),
        },
        50,
    )
}

fn sections(rt: &HostRuntime, first: Section, second: Section) -> io::Result<()> {
    cases(
        rt,
        "section, number",
        &Sample::three(first, second, Number::new(2)),
    )?;
    let first = Area {
        number: 1,
        key: Area {
            number: 2,
            key: first,
        },
    };
    let second = Area {
        number: 3,
        key: Area {
            number: 4,
            key: second,
        },
    };
    cases(
        rt,
        "area over area over section, number",
        &Sample::three(first, second, Number::new(2)),
    )?;
    let first = Area {
        number: 5,
        key: Area {
            number: 6,
            key: Area {
                number: 7,
                key: first,
            },
        },
    };
    let second = Area {
        number: 5,
        key: Area {
            number: 6,
            key: Area {
                number: 7,
                key: second,
            },
        },
    };
    cases(
        rt,
        "five areas over section, number",
        &Sample::three(first, second, Number::new(2)),
    )
}

// Kept as an `io::Result`: a failed write is told as the system tells it.
fn main(rt: HostRuntime) -> io::Result<()> {
    let (Ok(first), Ok(second)) = (Route::new(10, 14, Class::M), Route::new(9999, 1, Class::S))
    else {
        return println!(rt; "no route");
    };
    few(&rt, first, second)?;
    routes(&rt, first, second)?;
    let (Ok(first), Ok(second)) = (Section::new(b"AB"), Section::new(b"ABCDEFG7")) else {
        return println!(rt; "no section");
    };
    sections(&rt, first, second)
}
