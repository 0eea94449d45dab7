// What is decided of a call before anything changes.
use shelves::{Edit, Version};

// A version of a row, with its place.
#[derive(Clone, Copy, PartialEq, Eq, Debug)]
pub struct Chosen {
    pub place: usize,
    pub version: Version,
}

// Where a new transaction goes in its table, and its number and stamp.
#[derive(Clone, Copy, PartialEq, Eq, Debug)]
pub struct Admission {
    pub place: usize,
    pub number: u32,
    pub stamp: u32,
}

// The value of a read, and the edit that marks the version.
#[derive(Clone, Copy, PartialEq, Eq, Debug)]
pub struct Reading {
    pub value: u64,
    pub edit: Option<Edit>,
}

// A write: whether the oldest version goes first, and the edit, which is made either way.
#[derive(Clone, Copy, PartialEq, Eq, Debug)]
pub struct Writing {
    pub drop: bool,
    pub edit: Edit,
}
