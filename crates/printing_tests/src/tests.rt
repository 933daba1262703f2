// The words of the rules and of an unknown kind, printed.
use listing::UnknownKind;
use rules::{Carried, Mode, Note};
use std::test::Fail;

#[test]
fn printed_words(rt: HostRuntime) -> Result<(), Fail> {
    let carried = Carried::Walking.to_string(rt.alloc())?;
    assert_eq!(rt; carried.as_str(), "walking");
    let mode = Mode::Upto.to_string(rt.alloc())?;
    assert_eq!(rt; mode.as_str(), "upto");
    let note = Note::None.to_string(rt.alloc())?;
    assert_eq!(rt; note.as_str(), "none");
    let unknown = UnknownKind::Tallies.to_string(rt.alloc())?;
    assert_eq!(rt;
        unknown.as_str(),
        "TALLIES is number, classes or number+classes"
    );
    Ok(())
}
