// What a step decides of a row, and what it makes of a shelf.
#![tactic(auto)]

mod edit;
mod end;
mod fit;
mod read;
mod write;

pub use edit::{apply, apply_reading, apply_writing};
pub use end::{End, end_items};
pub use fit::{UnfitItem, check};
pub use read::{lower_read, own_read, wait};
pub use write::{Written, write_row};
