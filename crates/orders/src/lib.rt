// Level orders: who may read whom.
#![tactic(auto)]

mod chain;
mod label;
mod order;
mod refusal;
mod table;
mod walls;

pub use chain::Chain;
pub use label::Label;
pub use order::LevelOrder;
pub use refusal::OrderRefusal;
pub use table::Table;
pub use walls::{Walls, WallsBuilder};
