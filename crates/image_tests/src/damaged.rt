// Each fault with its offset, as a table.
use crate::sample::{FIRST, SECOND, sample};
use image::fault;
use std::test::Fail;

#[test]
fn each_fault_has_its_offset(rt: HostRuntime) -> Result<(), Fail> {
    let table = [
        (4, 140, None, "the sample"),
        (0, 0, Some(0), "no item"),
        (1, 17, Some(0), "4,354 items"),
        (0, 1, Some(4), "one item, another length"),
        (4, 141, Some(4), "another length told"),
        (8, 16, Some(8), "level 16"),
        (9, 0, Some(9), "no version"),
        (9, 9, Some(9), "nine versions"),
        (
            11,
            2,
            Some(SECOND + 24),
            "a second version of zeros, whose number does not rise",
        ),
        (SECOND + 12, 1, Some(11), "none committed"),
        (
            SECOND + 12,
            2,
            Some(11),
            "none committed, whatever the state",
        ),
        (FIRST + 24 + 12, 2, Some(FIRST + 36), "state 2"),
        (FIRST + 24 + 15, 1, Some(FIRST + 36), "state 16,777,216"),
        (FIRST + 24, 0, Some(FIRST + 24), "equal numbers"),
        (FIRST + 48, 1, Some(FIRST + 48), "numbers fall"),
        (FIRST + 52, 3, Some(FIRST + 52), "stamps fall"),
        (FIRST + 72, 255, None, "an unused place"),
        (FIRST, 1, None, "the first number is free"),
    ];
    for (at, byte, expected, why) in table {
        let bytes = sample(rt.alloc(), at, byte)?;
        assert_eq!(rt; fault(bytes.as_slice()), expected, "{}", why);
    }
    Ok(())
}

#[test]
fn bytes_that_are_too_short(rt: HostRuntime) {
    assert_eq!(rt; fault(&[]), Some(0));
    assert_eq!(rt; fault(&[1, 0, 0, 0, 202, 0, 0]), Some(0));
    assert_eq!(rt; fault(&[1, 0, 0, 0, 202, 0, 0, 0]), Some(4));
}
