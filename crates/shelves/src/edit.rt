// An edit of one version at a place of a row, counted from 0.
use crate::version::Version;

mod places;

pub use places::BLANK;

#[derive(Clone, Copy, PartialEq, Eq, Debug)]
pub enum Edit {
    // Replaces the version at the place.
    Put(usize, Version),
    // Adds a version before the place, or behind the last.
    Insert(usize, Version),
    // Takes out the version at the place.
    Remove(usize),
}
