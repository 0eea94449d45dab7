// Questions to the three placements, as tables.
use crate::placed;
use placements::{AtClock, Behind, ByDegree, Entry};
use std::process::Abort;

// Three transactions of different levels at these stamps.
fn entries(stamps: [u32; 3]) -> [Entry; 3] {
    let [a, b, c] = stamps;
    [
        Entry { level: 0, stamp: a },
        Entry { level: 2, stamp: b },
        Entry { level: 1, stamp: c },
    ]
}

// Asks by degree from 1 to 9, at each degree, and compares with what should come.
fn by_degree(rt: &impl Abort, case: &str, stamps: [u32; 3], table: &[(u8, u32)]) {
    let list = entries(stamps);
    for (degree, expected) in table {
        assert_eq!(rt;
            placed(&ByDegree, *degree, 1, 9, &list),
            *expected,
            "{case}"
        );
    }
}

#[test]
fn a_degree_passes_over_its_share(rt: HostRuntime) {
    let table = [
        (0, 3),
        (1, 5),
        (33, 5),
        (34, 8),
        (66, 8),
        (67, 9),
        (100, 9),
        (101, 9),
        (255, 9),
    ];
    by_degree(&rt, "rising", [3, 5, 8], &table);
    by_degree(&rt, "in another order", [8, 3, 5], &table);
}

#[test]
fn equal_stamps_are_each_counted(rt: HostRuntime) {
    by_degree(
        &rt,
        "two equal",
        [4, 7, 4],
        &[(0, 4), (33, 4), (34, 7), (66, 7), (67, 9)],
    );
    by_degree(&rt, "all equal", [6, 6, 6], &[(0, 6), (66, 6), (67, 9)]);
}

#[test]
fn an_answer_is_kept_within(rt: HostRuntime) {
    by_degree(&rt, "from 1 to 9", [0, 0, 12], &[(0, 1), (33, 1), (66, 9)]);
    let list = entries([3, 5, 8]);
    assert_eq!(rt; placed(&ByDegree, 0, 4, 4, &list), 4);
    assert_eq!(rt; placed(&ByDegree, 100, 4, 4, &list), 4);
    assert_eq!(rt; placed(&ByDegree, 34, 7, 6, &list), 7, "lo above hi");
}

#[test]
fn no_entry_and_one(rt: HostRuntime) {
    let one = [Entry { level: 3, stamp: 5 }];
    assert_eq!(rt; placed(&ByDegree, 0, 1, 9, &[]), 9);
    assert_eq!(rt; placed(&ByDegree, 100, 1, 9, &[]), 9);
    assert_eq!(rt; placed(&ByDegree, 0, 1, 9, &one), 5);
    assert_eq!(rt; placed(&ByDegree, 1, 1, 9, &one), 9);
}

#[test]
fn behind_and_at_the_clock(rt: HostRuntime) {
    let list = entries([3, 5, 8]);
    assert_eq!(rt; placed(&Behind, 100, 2, 9, &list), 2);
    assert_eq!(rt; placed(&Behind, 0, 9, 2, &list), 9);
    assert_eq!(rt; placed(&AtClock, 0, 2, 9, &list), 9);
    assert_eq!(rt; placed(&AtClock, 0, 9, 2, &list), 9, "lo above hi");
}
