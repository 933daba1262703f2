// The edges of the kinds, a few checks to each. Refusals are compared by their numbers, as documents tell them.
use keys::{Area, Class, Key, Route, Section, is_below};
use requests::Station;
use std::test::Fail;
use tallies::{Classes, Number, Tally};
use words::{number, read_route};

#[test]
fn signals(rt: HostRuntime) {
    assert_eq!(rt; Route::new(1, 9_999, Class::M).err(), None);
    assert_eq!(rt; Route::new(9_999, 1, Class::S).err(), None);
    assert_eq!(rt; Route::new(0, 1, Class::M).map_err(u8::from), Err(10));
    assert_eq!(rt; Route::new(1, 0, Class::M).map_err(u8::from), Err(10));
    assert_eq!(rt; Route::new(10_000, 1, Class::M).map_err(u8::from), Err(10));
    assert_eq!(rt; Route::new(1, 10_000, Class::M).map_err(u8::from), Err(10));
}

#[test]
fn section_names(rt: HostRuntime) {
    assert_eq!(rt; Section::new(b"A").err(), None);
    assert_eq!(rt; Section::new(b"ABCDEF12").err(), None);
    assert_eq!(rt; Section::new(b"ABCDEF123").map_err(u8::from), Err(10));
    assert_eq!(rt; Section::new(b"").map_err(u8::from), Err(10));
    assert_eq!(rt; Section::new(b"aB").map_err(u8::from), Err(10));
}

#[test]
fn section_order(rt: HostRuntime) -> Result<(), Fail> {
    let a = Section::new(b"A")?;
    let ab = Section::new(b"AB")?;
    let b = Section::new(b"B")?;
    assert!(rt; is_below(a, ab));
    assert!(rt; is_below(ab, b));
    assert!(rt; !is_below(b, ab));
    assert!(rt; !is_below(a, a));
    Ok(())
}

#[test]
fn class_numbers(rt: HostRuntime) -> Result<(), Fail> {
    assert_eq!(rt; u8::from(Class::try_from(1)?), 1);
    assert_eq!(rt; u8::from(Class::try_from(4)?), 4);
    assert_eq!(rt; Class::try_from(0).map_err(u8::from), Err(10));
    assert_eq!(rt; Class::try_from(5).map_err(u8::from), Err(10));
    Ok(())
}

#[test]
fn area_order(rt: HostRuntime) -> Result<(), Fail> {
    let late = Route::new(9_999, 9_999, Class::S)?;
    let early = Route::new(1, 1, Class::M)?;
    let north = Area {
        number: 1,
        key: late,
    };
    let south = Area {
        number: 2,
        key: early,
    };
    assert!(rt; is_below(north, south));
    assert!(rt; !is_below(south, north));
    assert!(rt;
        is_below(
            Area {
                number: 2,
                key: north,
            },
            Area {
                number: 2,
                key: south,
            },
        )
    );
    Ok(())
}

#[test]
fn number_wraps(rt: HostRuntime) -> Result<(), Fail> {
    let most = Number::new(u32::MAX);
    let one: Number = <Number as Tally<Route>>::weight(Route::new(1, 2, Class::M)?);
    assert_eq!(rt; one.value(), 1);
    assert_eq!(rt; <Number as Tally<Route>>::join(most, one).value(), 0);
    Ok(())
}

#[test]
fn classes_wrap(rt: HostRuntime) -> Result<(), Fail> {
    let most = Classes::new(7, u16::MAX, 0, 65_534);
    let one: Classes = <Classes as Tally<Route>>::weight(Route::new(1, 2, Class::W)?);
    let both = most.join(one);
    assert_eq!(rt; both.count(Class::W), 0);
    assert_eq!(rt; both.count(Class::M), 7);
    assert_eq!(rt; both.count(Class::S), 65_534);
    Ok(())
}

#[test]
fn stations(rt: HostRuntime) -> Result<(), Fail> {
    assert_eq!(rt; Station::new(0).map_err(u8::from), Err(1));
    assert_eq!(rt; Station::new(1)?.number(), 1);
    assert_eq!(rt; Station::new(8)?.number(), 8);
    assert_eq!(rt; Station::new(9).map_err(u8::from), Err(1));
    Ok(())
}

#[test]
fn number_words(rt: HostRuntime) {
    assert_eq!(rt; number(b"99999"), Some(99_999));
    assert_eq!(rt; number(b"100000"), None);
    assert_eq!(rt; number(b"0"), Some(0));
    assert_eq!(rt; number(b"00"), None);
    assert_eq!(rt; number(b""), None);
}

#[test]
fn route_lines(rt: HostRuntime) -> Result<(), Fail> {
    assert_eq!(rt; u8::from(read_route(b"12 14 C")?.class()), 3);
    assert_eq!(rt; read_route(b"12 14 c").map_err(u8::from), Err(11));
    assert_eq!(rt; read_route(b"12  14 C").map_err(u8::from), Err(11));
    assert_eq!(rt; read_route(b"12 14 C ").map_err(u8::from), Err(11));
    assert_eq!(rt; read_route(b"12 0 C").map_err(u8::from), Err(10));
    Ok(())
}
