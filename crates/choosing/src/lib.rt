// What a call looks at before it is decided: the active transactions at lower levels, and a version of a row.
#![tactic(auto)]

mod collected;
mod placed;
mod reach;
mod version;
mod watermark;

pub use collected::Collected;
pub use placed::Entries;
pub use reach::{Reach, collect};
pub use version::{Wanted, choose};
pub use watermark::{earliest, least};
