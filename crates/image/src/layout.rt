// Rows laid out as an image.
ghost use Rattle.std.specs.Prelude.{◌≡◌};

use shelves::Version;
use thiserror::Error;

mod all;
mod copy;
mod decide;
mod fitting;
mod item;
mod plain;
mod rows;

pub use copy::lay_out_shelf;
pub use plain::lay_out;

// An item to lay out: any level, and versions of any content and number.
#[derive(Clone, Copy)]
pub struct PlainRow<'a> {
    pub level: u8,
    pub versions: &'a [Version],
}

// What would be no image: the offset of its first faulty field.
#[derive(Clone, Copy, PartialEq, Eq, Debug, Error)]
#[error("no image: the field at byte {offset} would be faulty")]
pub struct LayoutFault {
    pub offset: usize,
}

// The number of this refusal.
impl From<LayoutFault> for u8 {
    ghost from_gives = { λ _ number. number ≡ 3 };

    fn from(_fault: LayoutFault) -> u8 {
        3
    }
}
