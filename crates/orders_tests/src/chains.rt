// Chains: each refusal with its number and its text, and who dominates whom.
use crate::rows::is_order;
use orders::{Chain, OrderRefusal};
use std::test::Fail;

#[test]
fn level_counts(rt: HostRuntime) -> Result<(), Fail> {
    for levels in [0, 17, 255] {
        assert_eq!(rt; Chain::new(levels).err(), Some(OrderRefusal::LevelCount));
    }
    is_order(&rt, &Chain::new(1)?, 1, &[(0, 1), (1, 0)]);
    is_order(&rt, &Chain::new(16)?, 16, &[(0, 1), (15, 0xffff), (16, 0)]);
    assert_eq!(rt; u8::from(OrderRefusal::LevelCount), 1);
    Ok(())
}

#[test]
fn each_dominates_those_below(rt: HostRuntime) -> Result<(), Fail> {
    is_order(
        &rt,
        &Chain::new(3)?,
        3,
        &[(0, 0b001), (1, 0b011), (2, 0b111), (3, 0), (255, 0)],
    );
    Ok(())
}

#[test]
fn a_refusal_tells_why(rt: HostRuntime) -> Result<(), Fail> {
    for (refusal, text) in [
        (OrderRefusal::LevelCount, "an order has 1 to 16 levels"),
        (OrderRefusal::LawBroken, "a law of orders is broken"),
    ] {
        assert_eq!(rt; format!(in rt.alloc(); "{refusal}")?.as_str(), text);
    }
    Ok(())
}
