// Tables: each law broken by itself, and what stands beyond the levels.
use crate::rows::is_order;
use orders::{OrderRefusal, Table};
use std::test::Fail;

// Three rows, and beyond them rows that would break every law.
fn table(three: [u16; 3]) -> Result<Table, OrderRefusal> {
    let mut rows = [0x5555; 16];
    rows[..3].copy_from_slice(&three);
    Table::new(3, rows)
}

#[test]
fn level_counts_come_first(rt: HostRuntime) -> Result<(), Fail> {
    for levels in [0, 17] {
        assert_eq!(rt;
            Table::new(levels, [0; 16]).err(),
            Some(OrderRefusal::LevelCount)
        );
    }
    assert_eq!(rt;
        Table::new(16, [0; 16]).err(),
        Some(OrderRefusal::LawBroken)
    );
    is_order(&rt, &Table::new(1, [1; 16])?, 1, &[(0, 1), (1, 0)]);
    Ok(())
}

#[test]
fn each_law_is_tested(rt: HostRuntime) {
    let broken = [
        ([0b000, 0b010, 0b100], "0 does not dominate itself"),
        ([0b001, 0b010, 0b000], "2 does not dominate itself"),
        ([0b011, 0b011, 0b100], "0 and 1 dominate each other"),
        (
            [0b001, 0b011, 0b110],
            "2 dominates 1, which dominates 0, but not 0",
        ),
    ];
    for (three, why) in broken {
        assert_eq!(rt; table(three).err(), Some(OrderRefusal::LawBroken), "{why}");
    }
}

#[test]
fn a_lawful_table(rt: HostRuntime) -> Result<(), Fail> {
    is_order(
        &rt,
        &table([0b101, 0b010, 0b100])?,
        3,
        &[(0, 0b101), (1, 0b010), (2, 0b100), (3, 0)],
    );
    Ok(())
}

#[test]
fn bits_beyond_the_levels_mean_nothing(rt: HostRuntime) -> Result<(), Fail> {
    is_order(
        &rt,
        &table([0b1001, 0b010, 0b1111_1111_1111_1100])?,
        3,
        &[(0, 0b001), (1, 0b010), (2, 0b100), (3, 0)],
    );
    Ok(())
}
