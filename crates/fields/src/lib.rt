// Numbers and versions in bytes.
#![tactic(auto)]

mod read;
mod write;

pub use read::{read_version, read32};
pub use write::{write_row, write32};
