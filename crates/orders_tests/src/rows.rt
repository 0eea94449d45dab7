// What the levels of an order dominate, as bits: bit b for level b.
use orders::LevelOrder;
use std::process::Abort;

fn row<O: LevelOrder>(order: &O, a: u8) -> u16 {
    (0..16)
        .filter(|b| order.dominates(a, *b))
        .fold(0, |bits, b| bits | 1 << b)
}

// Whether an order has so many levels, and each number dominates what the table says.
pub fn is_order<O: LevelOrder>(rt: &impl Abort, order: &O, levels: u8, rows: &[(u8, u16)]) {
    assert_eq!(rt; order.levels(), levels);
    for (level, bits) in rows {
        assert_eq!(rt; row(order, *level), *bits);
    }
}
