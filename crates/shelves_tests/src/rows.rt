// A row by itself: how it is made, read and edited.
use crate::rules::version;
use shelves::{BLANK, Edit, Row, State};
use std::test::Fail;

#[test]
fn rows_of_eight_places(rt: HostRuntime) -> Result<(), Fail> {
    let two = version(2, 2, State::Pending);
    let row = Row::new([BLANK; 8], 1).ok_or("no row")?;
    assert!(rt; Row::new([BLANK; 8], 2).is_none(), "equal numbers");
    assert!(rt; Row::new([BLANK; 8], 9).is_none(), "nine places");
    let longer = row.edited(Edit::Insert(1, two)).ok_or("not inserted")?;
    assert_eq!(rt; longer.len(), 2);
    assert_eq!(rt; longer.look(1), Some(two));
    assert_eq!(rt; longer.look(2), None);
    assert_eq!(rt; longer.as_slice(), [BLANK, two].as_slice());
    assert!(rt; longer.edited(Edit::Remove(0)).is_none(), "none committed");
    assert!(rt; longer.edited(Edit::Remove(2)).is_none(), "no such place");
    Ok(())
}
