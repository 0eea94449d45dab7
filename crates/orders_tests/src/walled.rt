// Walls: each refusal with the builder after it, the four labels, and who dominates whom.
use crate::rows::is_order;
use orders::{Label, OrderRefusal, WallsBuilder};
use std::test::Fail;

fn label(rank: u8, walls: u16) -> Label {
    Label { rank, walls }
}

// A builder that was given these labels.
fn built(labels: &[Label]) -> Result<WallsBuilder, OrderRefusal> {
    let mut builder = WallsBuilder::new();
    for label in labels {
        builder.add(*label)?;
    }
    Ok(builder)
}

const FOUR: [Label; 4] = [
    Label { rank: 0, walls: 0 },
    Label { rank: 1, walls: 1 },
    Label { rank: 1, walls: 2 },
    Label { rank: 2, walls: 3 },
];

const FOUR_ROWS: [(u8, u16); 5] = [(0, 0b0001), (1, 0b0011), (2, 0b0101), (3, 0b1111), (4, 0)];

#[test]
fn walls_keep_apart(rt: HostRuntime) -> Result<(), Fail> {
    is_order(&rt, &built(&FOUR)?.finish()?, 4, &FOUR_ROWS);
    Ok(())
}

#[test]
fn no_label(rt: HostRuntime) {
    assert_eq!(rt;
        WallsBuilder::new().finish().err(),
        Some(OrderRefusal::LevelCount)
    );
}

#[test]
fn an_equal_label_changes_nothing(rt: HostRuntime) -> Result<(), Fail> {
    let mut builder = built(&FOUR)?;
    for label in FOUR {
        assert_eq!(rt; builder.add(label), Err(OrderRefusal::LawBroken));
    }
    is_order(&rt, &builder.finish()?, 4, &FOUR_ROWS);
    assert_eq!(rt; u8::from(OrderRefusal::LawBroken), 2);
    Ok(())
}

#[test]
fn a_builder_goes_on(rt: HostRuntime) -> Result<(), Fail> {
    let mut builder = built(&[label(7, 0)])?;
    let walls = builder.finish()?;
    assert_eq!(rt; builder.add(label(7, 0)), Err(OrderRefusal::LawBroken));
    assert_eq!(rt; builder.add(label(8, 0)), Ok(()));
    is_order(&rt, &walls, 1, &[(0, 1), (1, 0)]);
    is_order(&rt, &builder.finish()?, 2, &[(0, 1), (1, 0b11), (2, 0)]);
    Ok(())
}

#[test]
fn a_seventeenth_label_changes_nothing(rt: HostRuntime) -> Result<(), Fail> {
    let mut builder = WallsBuilder::new();
    // The number is the set of walls itself.
    for walls in 0..16 {
        assert_eq!(rt; builder.add(label(7, walls)), Ok(()));
    }
    for walls in [16, 3] {
        assert_eq!(rt; builder.add(label(7, walls)), Err(OrderRefusal::LevelCount));
    }
    is_order(
        &rt,
        &builder.finish()?,
        16,
        &[(5, 0b0011_0011), (15, 0xffff), (16, 0)],
    );
    Ok(())
}
