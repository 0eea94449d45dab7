// One call of any kind, runs of many, and what is true of every run.
#![tactic(auto)]

mod running;
mod sending;
#[cfg(test)]
mod tests;

pub use running::{NoRoom, run, run_both};
pub use sending::send;
