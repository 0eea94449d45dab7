// A shelf that holds up to 64 items itself.
ghost use Rattle.std.specs.Prelude.{◌≡◌, ◌≤◌, length};

use crate::row::Row;

mod items;

// An item: its level and its row.
#[derive(Clone, Copy)]
struct Entry {
    level: u8,
    row: Row,
}

// Items 0 to `count` - 1 are the first entries; the others mean nothing.
// They are a plain array: shelves allocate nothing, and a refused edit leaves the unused entries equal too.
#[derive(Drop)]
pub struct Drawer {
    entries: [Entry; 64],
    count: u32,
    ghost full: { length entries ≡ 64 },
    ghost few: { count ≤ 64 },
}
