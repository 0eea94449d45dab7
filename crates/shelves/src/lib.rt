// Shelves: what holds the rows of versions.
#![tactic(auto)]

mod drawer;
mod edit;
mod refusal;
mod row;
mod rule;
mod shelf;
mod state;
mod version;

pub use drawer::Drawer;
pub use edit::{BLANK, Edit};
pub use refusal::ShelfRefusal;
pub use row::Row;
pub use rule::{any_committed, keeps_rule};
pub use shelf::Shelf;
pub use state::UnknownState;
pub use version::{State, Version};
