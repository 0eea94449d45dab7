// Placements: where on the clock's line a transaction stands.
#![tactic(auto)]

mod behind;
mod clock;
mod degree;
mod entry;
mod placement;
mod rank;

pub use behind::Behind;
pub use clock::AtClock;
pub use degree::ByDegree;
pub use entry::Entry;
pub use placement::Placement;
pub use rank::{ranked, share};
