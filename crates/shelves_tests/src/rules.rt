// The row rule, as tables.
use shelves::{State, Version, keeps_rule};

pub fn version(number: u32, stamp: u32, state: State) -> Version {
    Version {
        number,
        stamp,
        mark: number,
        state,
        value: 7,
    }
}

fn committed(number: u32, stamp: u32) -> Version {
    version(number, stamp, State::Committed)
}

fn pending(number: u32, stamp: u32) -> Version {
    version(number, stamp, State::Pending)
}

#[test]
fn rows_that_keep_it(rt: HostRuntime) {
    assert!(rt; keeps_rule(&[committed(0, 0)]));
    assert!(rt;
        keeps_rule(&[committed(0, 0), pending(1, 0)]),
        "equal stamps"
    );
    assert!(rt;
        keeps_rule(&[pending(4, 2), committed(9, 2), pending(10, 3)]),
        "the oldest pending"
    );
    let eight = [
        committed(1, 1),
        pending(2, 1),
        pending(3, 1),
        pending(4, 1),
        pending(5, 1),
        pending(6, 2),
        pending(7, 2),
        pending(8, 9),
    ];
    assert!(rt; keeps_rule(&eight));
}

#[test]
fn rows_that_break_it(rt: HostRuntime) {
    assert!(rt; !keeps_rule(&[]), "no version");
    assert!(rt; !keeps_rule(&[pending(1, 1)]), "none committed");
    assert!(rt;
        !keeps_rule(&[committed(1, 1), committed(1, 2)]),
        "equal numbers"
    );
    assert!(rt;
        !keeps_rule(&[committed(2, 1), committed(1, 1)]),
        "numbers fall"
    );
    assert!(rt;
        !keeps_rule(&[committed(1, 2), committed(2, 1)]),
        "stamps fall"
    );
    let v = committed(1, 1);
    assert!(rt; !keeps_rule(&[v, v, v, v, v, v, v, v, v]), "nine");
}
