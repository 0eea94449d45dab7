// Shares and ranks, as tables.
use placements::{Entry, ranked, share};

#[test]
fn shares_round_up(rt: HostRuntime) {
    let table = [
        (60, 101, 61),
        (0, 128, 0),
        (100, 128, 128),
        (255, 7, 7),
        (1, 1, 1),
        (50, 3, 2),
        (99, 0, 0),
    ];
    for (degree, count, expected) in table {
        assert_eq!(rt; share(degree, count), expected);
    }
    assert_eq!(rt; share(100, usize::MAX), usize::MAX);
}

#[test]
fn ranks_count_upwards(rt: HostRuntime) {
    let entries = [
        Entry { level: 1, stamp: 7 },
        Entry { level: 0, stamp: 2 },
        Entry { level: 1, stamp: 7 },
    ];
    let table = [(0, Some(2)), (1, Some(7)), (2, Some(7)), (3, None)];
    for (k, expected) in table {
        assert_eq!(rt; ranked(&entries, k), expected);
    }
    assert_eq!(rt;
        ranked(
            &[Entry {
                level: 0,
                stamp: u32::MAX,
            }],
            0,
        ),
        Some(u32::MAX)
    );
    assert_eq!(rt; ranked(&[], 0), None);
}
