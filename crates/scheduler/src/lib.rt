// The scheduler: six calls over any order, any placement and any shelf.
#![tactic(auto)]

mod begin;
mod end;
mod lookup;
mod parts;
mod read;
mod state;
mod write;

pub use state::Scheduler;
