// The drawer: items, refusals with the drawer after them, and edits.
use crate::rules::version;
use shelves::{Drawer, Shelf, ShelfRefusal, State};
use std::test::Fail;

// Puts back what it looked at; yes or no, as the shelf says.
fn put_back<S: Shelf>(shelf: &mut S, item: u32, place: usize) -> bool {
    shelf
        .look(item, place)
        .is_some_and(|version| shelf.put(item, place, version))
}

#[test]
fn sixty_four_items(rt: HostRuntime) -> Result<(), Fail> {
    let mut drawer = Drawer::new();
    assert_eq!(rt; drawer.count(), 0);
    // The number is the level itself.
    for k in 0..64u8 {
        assert_eq!(rt; drawer.add(k, u64::from(k) * 10), Ok(()));
    }
    assert_eq!(rt; drawer.add(1, 1), Err(ShelfRefusal::DrawerFull));
    assert_eq!(rt; u8::from(ShelfRefusal::DrawerFull), 3);
    assert_eq!(rt; drawer.count(), 64);
    assert_eq!(rt; drawer.level(63), 63);
    assert_eq!(rt; drawer.look(63, 0).ok_or("no version")?.value, 630);
    Ok(())
}

#[test]
fn unknown_items(rt: HostRuntime) {
    let mut drawer = Drawer::new();
    assert_eq!(rt; drawer.add(5, 50), Ok(()));
    assert_eq!(rt; drawer.level(1), 0);
    assert_eq!(rt; drawer.versions(1), 0);
    assert_eq!(rt; drawer.look(1, 0), None);
    assert!(rt; !drawer.insert(1, 0, version(0, 0, State::Committed)));
    assert!(rt; !put_back(&mut drawer, 1, 0));
    assert!(rt; put_back(&mut drawer, 0, 0));
}

#[test]
fn edits_of_a_row(rt: HostRuntime) {
    let mut drawer = Drawer::new();
    assert_eq!(rt; drawer.add(2, 20), Ok(()));
    assert_eq!(rt; drawer.add(2, 21), Ok(()));
    let two = version(2, 2, State::Pending);
    let one = version(1, 1, State::Committed);
    assert!(rt; drawer.insert(0, 1, two));
    assert!(rt; drawer.insert(0, 1, one));
    assert_eq!(rt; drawer.versions(0), 3);
    assert_eq!(rt; drawer.look(0, 1), Some(one));
    assert_eq!(rt; drawer.look(0, 2), Some(two));
    assert!(rt; drawer.put(0, 2, version(2, 2, State::Committed)));
    assert!(rt; drawer.remove(0, 0));
    assert_eq!(rt; drawer.look(0, 0), Some(one));
    assert_eq!(rt; drawer.look(0, 2), None);
    assert_eq!(rt; drawer.versions(1), 1, "the other row");
}

#[test]
fn refused_edits_change_nothing(rt: HostRuntime) {
    let mut drawer = Drawer::new();
    assert_eq!(rt; drawer.add(2, 20), Ok(()));
    let first = drawer.look(0, 0);
    assert!(rt; !drawer.remove(0, 0), "the only version");
    assert!(rt;
        !drawer.put(0, 0, version(0, 0, State::Pending)),
        "none committed"
    );
    assert!(rt;
        !drawer.put(0, 1, version(1, 1, State::Committed)),
        "no such place"
    );
    assert!(rt;
        !drawer.insert(0, 2, version(1, 1, State::Pending)),
        "beyond the end"
    );
    assert!(rt;
        !drawer.insert(0, 0, version(1, 1, State::Pending)),
        "out of order"
    );
    assert_eq!(rt; drawer.look(0, 0), first);
    assert_eq!(rt; drawer.versions(0), 1);
}

#[test]
fn a_ninth_version(rt: HostRuntime) {
    let mut drawer = Drawer::new();
    assert_eq!(rt; drawer.add(0, 0), Ok(()));
    // The number is the version itself.
    for n in 1..8u32 {
        assert!(rt; drawer.insert(0, n as usize, version(n, 1, State::Committed)));
    }
    assert!(rt; !drawer.insert(0, 8, version(8, 1, State::Committed)));
    assert_eq!(rt; drawer.versions(0), 8);
    assert!(rt; drawer.remove(0, 0));
    assert!(rt; drawer.insert(0, 7, version(8, 1, State::Committed)));
}
