// The active transactions of one level: eight places, and the last number and stamp that were given; and the tables of
// the sixteen levels.
#![tactic(auto)]

mod place;
mod table;
mod tables;

pub use place::{Active, Held, Place};
pub use table::Table;
pub use tables::Tables;
