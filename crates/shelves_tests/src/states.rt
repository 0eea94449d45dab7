// The numbers of states and refusals.
use shelves::{ShelfRefusal, State, UnknownState};
use std::test::Fail;

#[test]
fn numbers_and_back(rt: HostRuntime) {
    for state in [State::Committed, State::Pending] {
        assert_eq!(rt; State::try_from(u32::from(state)), Ok(state));
    }
    assert_eq!(rt; u32::from(State::Pending), 1);
    assert_eq!(rt; State::try_from(2), Err(UnknownState { number: 2 }));
}

#[test]
fn texts(rt: HostRuntime) -> Result<(), Fail> {
    assert_eq!(rt; u8::from(ShelfRefusal::DrawerFull), 3);
    let full = format!(in rt.alloc(); "{}", ShelfRefusal::DrawerFull)?;
    assert_eq!(rt; full.as_str(), "a drawer has 64 items already");
    let unknown = format!(in rt.alloc(); "{}", UnknownState { number: 9 })?;
    assert_eq!(rt; unknown.as_str(), "no state has number 9");
    Ok(())
}
