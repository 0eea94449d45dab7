// The texts of refusals: of a call, of parts that do not fit, and of a run with no room.
use crate::running::NoRoom;
use rules::Refusal;
use std::test::Fail;
use steps::UnfitItem;

#[test]
fn a_refusal_names_level_and_number(rt: HostRuntime) -> Result<(), Fail> {
    for (refusal, text) in [
        (
            Refusal::NotActive,
            "the level has no such active transaction",
        ),
        (
            Refusal::PendingOther(3, 7),
            "the version is pending, of transaction 7 of level 3",
        ),
        (Refusal::Wait(3, 7), "wait for transaction 7 of level 3"),
    ] {
        assert_eq!(rt; format!(in rt.alloc(); "{refusal}")?.as_str(), text);
    }
    Ok(())
}

#[test]
fn an_unfit_item_is_named(rt: HostRuntime) -> Result<(), Fail> {
    let unfit = UnfitItem { item: 12 };
    let text = format!(in rt.alloc(); "{unfit}")?;
    assert_eq!(rt; text.as_str(), "item 12 does not fit the order");
    Ok(())
}

#[test]
fn no_room_tells_why(rt: HostRuntime) -> Result<(), Fail> {
    let text = format!(in rt.alloc(); "{NoRoom}")?;
    assert_eq!(rt;
        text.as_str(),
        "there are more calls than places for their answers"
    );
    Ok(())
}
