// A shelf over bytes.
#![tactic(auto)]

mod faults;
mod layout;
mod offsets;
mod opening;

pub use faults::fault;
pub use layout::{LayoutFault, PlainRow, lay_out, lay_out_shelf};
pub use opening::{Image, NotImage};
