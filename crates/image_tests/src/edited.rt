// An image opened, asked and edited, beside a drawer.
use crate::sample::{FIRST, SECOND, sample};
use image::Image;
use shelves::{Drawer, Shelf, State, Version};
use std::process::Abort;
use std::test::Fail;

fn version(number: u32, stamp: u32) -> Version {
    Version {
        number,
        stamp,
        mark: 9,
        state: State::Pending,
        value: u64::MAX,
    }
}

#[test]
fn damaged_bytes_come_back(rt: HostRuntime) -> Result<(), Fail> {
    let opened = Image::open(sample(rt.alloc(), 9, 0)?);
    let refused = opened.err().ok_or("opened")?;
    assert_eq!(rt; refused.offset, 9);
    assert_eq!(rt; u8::from(&refused), 3);
    assert_eq!(rt; refused.bytes.len(), 396);
    assert_eq!(rt;
        format!(in rt.alloc(); "{refused}")?.as_str(),
        "no image: the field at byte 9 is faulty"
    );
    Ok(())
}

fn opened(rt: &HostRuntime) -> Result<Image, Fail> {
    Ok(Image::open(sample(rt.alloc(), 4, 140)?)?)
}

#[test]
fn an_image_tells_its_items(rt: HostRuntime) -> Result<(), Fail> {
    let image = opened(&rt)?;
    assert_eq!(rt; image.count(), 2);
    for (item, level, versions) in [(0, 1, 3), (1, 3, 1), (2, 0, 0)] {
        assert_eq!(rt; image.level(item), level);
        assert_eq!(rt; image.versions(item), versions);
    }
    assert_eq!(rt; image.look(0, 2).ok_or("no version")?.number, 5);
    assert_eq!(rt; image.look(0, 3), None);
    Ok(())
}

// Bytes of an image at some offsets.
fn has_bytes(rt: &impl Abort, image: Image, table: &[(usize, u8)]) {
    let bytes = image.into_bytes();
    for (at, byte) in table {
        assert_eq!(rt; bytes.get(*at).copied(), Some(*byte));
    }
}

#[test]
fn removing_clears_the_place(rt: HostRuntime) -> Result<(), Fail> {
    let mut image = opened(&rt)?;
    assert!(rt; image.remove(0, 1));
    assert_eq!(rt; image.versions(0), 2);
    assert_eq!(rt; image.look(0, 1).ok_or("no version")?.number, 5);
    has_bytes(
        &rt,
        image,
        &[
            (9, 2),
            (FIRST + 24, 5),
            (FIRST + 36, 1),
            (FIRST + 48, 0),
            (FIRST + 52, 0),
            (FIRST + 60, 0),
        ],
    );
    Ok(())
}

#[test]
fn inserting_moves_the_others(rt: HostRuntime) -> Result<(), Fail> {
    let mut image = opened(&rt)?;
    assert!(rt; image.insert(0, 2, version(3, 4)));
    assert_eq!(rt; image.look(0, 2), Some(version(3, 4)));
    has_bytes(
        &rt,
        image,
        &[
            (9, 4),
            (FIRST + 48, 3),
            (FIRST + 56, 9),
            (FIRST + 71, 255),
            (FIRST + 72, 5),
            (SECOND + 16, 30),
        ],
    );
    Ok(())
}

// The same edits, and whether each is accepted.
fn answers<S: Shelf>(shelf: &mut S) -> [bool; 6] {
    [
        shelf.insert(0, 1, version(1, 1)),
        shelf.insert(0, 0, version(4, 4)),
        shelf.put(0, 1, version(2, 1)),
        shelf.put(0, 0, version(0, 0)),
        shelf.remove(0, 0),
        shelf.remove(0, 1),
    ]
}

#[test]
fn an_image_answers_as_a_drawer(rt: HostRuntime) -> Result<(), Fail> {
    let mut drawer = Drawer::new();
    assert!(rt; drawer.add(1, 30).is_ok());
    let mut bytes = vec![in rt.alloc(); 0u8; 202]?;
    assert!(rt; bytes.len() == 202);
    bytes[0] = 1;
    bytes[4] = 202;
    bytes[9] = 1;
    let mut image = Image::open(bytes)?;
    assert!(rt; answers(&mut image) == answers(&mut drawer));
    Ok(())
}
