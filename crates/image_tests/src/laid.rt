// Rows laid out, opened and asked again, and each fault with its offset.
use image::{Image, LayoutFault, PlainRow, fault, lay_out, lay_out_shelf};
use shelves::{Drawer, Shelf, State, Version};
use std::process::Abort;
use std::test::Fail;

fn version(number: u32, stamp: u32, state: State) -> Version {
    Version {
        number,
        stamp,
        mark: u32::MAX,
        state,
        value: u64::MAX,
    }
}

fn committed(number: u32, stamp: u32) -> Version {
    version(number, stamp, State::Committed)
}

fn pending(number: u32, stamp: u32) -> Version {
    version(number, stamp, State::Pending)
}

// An item of a shelf has this level and exactly these versions.
fn has_row<S: Shelf>(
    rt: &impl Abort,
    shelf: &S,
    item: u32,
    level: u8,
    versions: &[Version],
) -> Result<(), Fail> {
    assert_eq!(rt; shelf.level(item), level);
    assert_eq!(rt; shelf.versions(item), versions.len());
    for (place, version) in versions.iter().enumerate() {
        assert_eq!(rt; shelf.look(item, place), Some(*version));
    }
    Ok(())
}

fn lay_two<'a>(
    first: &'a [Version],
    level: u8,
    second: &'a [Version],
    bytes: &mut [u8],
) -> Result<(), LayoutFault> {
    let low = PlainRow {
        level: 0,
        versions: first,
    };
    let high = PlainRow {
        level,
        versions: second,
    };
    lay_out(&[low, high], bytes)
}

// Rows of one version and of eight, over bytes that were not zero.
#[test]
fn rows_come_back(rt: HostRuntime) -> Result<(), Fail> {
    let one = [committed(9, 0)];
    let eight = [
        pending(0, 5),
        pending(1, 5),
        pending(2, 5),
        pending(3, 5),
        pending(4, 5),
        committed(5, 5),
        pending(6, 5),
        committed(u32::MAX, u32::MAX),
    ];
    let mut bytes = vec![in rt.alloc(); 255u8; 396]?;
    assert!(rt; lay_two(&one, 15, &eight, bytes.as_mut_slice()).is_ok());
    assert_eq!(rt; bytes.get(12 + 24).copied(), Some(0));
    assert_eq!(rt; bytes.get(203).copied(), Some(0));
    let image = Image::open(bytes)?;
    assert_eq!(rt; image.count(), 2);
    has_row(&rt, &image, 0, 0, &one)?;
    has_row(&rt, &image, 1, 15, &eight)
}

// As many items as are asked for, all alike.
fn laid(rt: &(impl Abort + AllocGlobal), count: usize) -> Result<Option<LayoutFault>, Fail> {
    assert!(rt; count < 5000);
    let row = PlainRow {
        level: 3,
        versions: &[committed(7, 7)],
    };
    let rows = vec![in rt.alloc(); row; count]?;
    let mut bytes = vec![in rt.alloc(); 1u8; 8 + 194 * count]?;
    let refused = lay_out(rows.as_slice(), bytes.as_mut_slice()).err();
    if refused.is_none() {
        assert_eq!(rt; fault(bytes.as_slice()), None);
    }
    Ok(refused)
}

#[test]
fn from_1_to_4096_items(rt: HostRuntime) -> Result<(), Fail> {
    assert_eq!(rt; laid(&rt, 0)?, Some(LayoutFault { offset: 0 }));
    assert_eq!(rt; laid(&rt, 1)?, None);
    assert_eq!(rt; laid(&rt, 4096)?, None);
    assert_eq!(rt; laid(&rt, 4097)?, Some(LayoutFault { offset: 0 }));
    Ok(())
}

// A row as item 1 of 2, into bytes of 7, which a refusal leaves.
fn try_row(
    rt: &(impl Abort + AllocGlobal),
    case: &str,
    level: u8,
    versions: &[Version],
    length: usize,
    expected: Option<usize>,
) -> Result<(), Fail> {
    let mut bytes = vec![in rt.alloc(); 7u8; length]?;
    let refused = lay_two(&[committed(0, 0)], level, versions, bytes.as_mut_slice()).err();
    assert_eq!(rt; refused.map(|fault| fault.offset), expected, "{case}");
    if let Some(fault) = refused {
        assert_eq!(rt; u8::from(fault), 3, "{case}");
        assert!(rt; bytes.iter().all(|byte| *byte == 7), "{case}");
    }
    Ok(())
}

#[test]
fn how_many_bytes(rt: HostRuntime) -> Result<(), Fail> {
    for (length, expected) in [
        (396, None),
        (7, Some(0)),
        (8, Some(4)),
        (395, Some(4)),
        (397, Some(4)),
    ] {
        try_row(
            &rt,
            "length alone",
            15,
            &[committed(0, 0)],
            length,
            expected,
        )?;
    }
    try_row(&rt, "length before level", 16, &[], 395, Some(4))
}

#[test]
fn each_fault_of_rows_has_its_offset(rt: HostRuntime) -> Result<(), Fail> {
    try_row(&rt, "level 16", 16, &[], 396, Some(10))?;
    try_row(&rt, "no version", 0, &[], 396, Some(11))?;
    try_row(
        &rt,
        "nine versions",
        0,
        &[committed(0, 0); 9],
        396,
        Some(11),
    )?;
    try_row(&rt, "none committed", 0, &[pending(0, 0)], 396, Some(11))?;
    try_row(
        &rt,
        "number before stamp",
        0,
        &[committed(1, 2), pending(1, 1)],
        396,
        Some(228),
    )?;
    try_row(
        &rt,
        "stamps fall",
        0,
        &[committed(1, 2), pending(2, 1)],
        396,
        Some(232),
    )
}

#[test]
fn a_drawer_becomes_an_image(rt: HostRuntime) -> Result<(), Fail> {
    let mut drawer = Drawer::new();
    assert!(rt; drawer.add(1, 10).is_ok());
    assert!(rt; drawer.add(2, 20).is_ok());
    assert!(rt; drawer.insert(1, 1, pending(3, 4)));
    let mut bytes = vec![in rt.alloc(); 255u8; 396]?;
    assert!(rt; lay_out_shelf(&drawer, bytes.as_mut_slice()).is_ok());
    let image = Image::open(bytes)?;
    // Both shelves are asked by number.
    for item in 0..2 {
        assert_eq!(rt; image.level(item), drawer.level(item));
        assert_eq!(rt; image.versions(item), drawer.versions(item));
        assert_eq!(rt; image.look(item, 0), drawer.look(item, 0));
        assert_eq!(rt; image.look(item, 1), drawer.look(item, 1));
    }
    Ok(())
}

#[test]
fn a_drawer_may_have_a_level_that_images_have_not(rt: HostRuntime) -> Result<(), Fail> {
    let mut drawer = Drawer::new();
    let mut bytes = vec![in rt.alloc(); 255u8; 202]?;
    assert_eq!(rt;
        lay_out_shelf(&drawer, bytes.as_mut_slice()).err(),
        Some(LayoutFault { offset: 0 })
    );
    assert!(rt; drawer.add(16, 10).is_ok());
    assert_eq!(rt;
        lay_out_shelf(&drawer, bytes.as_mut_slice()).err(),
        Some(LayoutFault { offset: 8 })
    );
    Ok(())
}

#[test]
fn a_fault_tells_its_offset(rt: HostRuntime) -> Result<(), Fail> {
    let fault = LayoutFault { offset: 228 };
    let text = format!(in rt.alloc(); "{fault}")?;
    assert_eq!(rt;
        text.as_str(),
        "no image: the field at byte 228 would be faulty"
    );
    Ok(())
}
