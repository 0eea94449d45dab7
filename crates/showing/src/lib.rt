// What a program shows of levels, placements and rows.
// No contract can say what a terminal gets, so a function that prints promises only what it leaves of what it was lent.
#![tactic(auto)]

mod chart;
mod damaged;
mod degrees;
mod fault;
mod labels;
mod levels;
mod parts;
mod rows;
mod samples;

pub use damaged::print_damaged;
pub use fault::ShowFault;
pub use labels::{LabelFault, take_label};
pub use parts::print_parts;
pub use rows::{print_drawer, print_edits, print_heading, print_image};
pub use samples::two_items;
