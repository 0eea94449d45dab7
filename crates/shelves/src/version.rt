// A version of an item.

// Whether the transaction that wrote a version has committed.
#[derive(Clone, Copy, PartialEq, Eq, Debug)]
pub enum State {
    Committed,
    Pending,
}

#[derive(Clone, Copy, PartialEq, Eq, Debug)]
pub struct Version {
    // Begin number of the transaction that wrote it; 0 for a first value.
    pub number: u32,
    // That transaction's stamp.
    pub stamp: u32,
    // Read mark: the largest begin number of its own level that read it.
    pub mark: u32,
    pub state: State,
    pub value: u64,
}
