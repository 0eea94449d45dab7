// An active transaction as a placement sees it: its level, and its stamp, which says where on the clock's line it
// stands.
#[derive(Clone, Copy, PartialEq, Eq, Debug)]
pub struct Entry {
    pub level: u8,
    pub stamp: u32,
}
