// The levels, the items and the calls.
use orders::{Label, OrderRefusal, Table, Walls, WallsBuilder};
use rules::Call;
use shelves::{Drawer, ShelfRefusal};

// Level 0 is open to all; 1 and 2 are the two sides, a wall around each; 3 stands above both walls.
pub fn walls() -> Result<Walls, OrderRefusal> {
    let mut builder = WallsBuilder::new();
    for (rank, walls) in [(0, 0), (1, 1), (1, 2), (2, 3)] {
        builder.add(Label { rank, walls })?;
    }
    builder.finish()
}

// The same order, bit by bit.
pub fn table() -> Result<Table, OrderRefusal> {
    let mut rows = [0; 16];
    rows[..4].copy_from_slice(&[0b1, 0b11, 0b101, 0b1111]);
    Table::new(4, rows)
}

// An item at each level.
pub fn drawer() -> Result<Drawer, ShelfRefusal> {
    let mut drawer = Drawer::new();
    for (level, value) in [(0, 100), (1, 200), (2, 300), (3, 400)] {
        drawer.add(level, value)?;
    }
    Ok(drawer)
}

pub const BUSY: [Call; 20] = [
    Call::Begin {
        level: 1,
        degree: 0,
    },
    Call::Write {
        level: 1,
        number: 1,
        item: 1,
        value: 201,
    },
    Call::Begin {
        level: 2,
        degree: 0,
    },
    Call::Write {
        level: 2,
        number: 1,
        item: 2,
        value: 301,
    },
    Call::Tick,
    Call::Begin {
        level: 3,
        degree: 100,
    },
    Call::Read {
        level: 3,
        number: 1,
        item: 1,
    },
    Call::Begin {
        level: 0,
        degree: 0,
    },
    Call::Write {
        level: 0,
        number: 1,
        item: 0,
        value: 101,
    },
    Call::Read {
        level: 1,
        number: 1,
        item: 0,
    },
    Call::Commit {
        level: 1,
        number: 1,
    },
    Call::Read {
        level: 3,
        number: 1,
        item: 1,
    },
    Call::Begin {
        level: 1,
        degree: 100,
    },
    Call::Read {
        level: 1,
        number: 2,
        item: 2,
    },
    Call::Abort {
        level: 2,
        number: 1,
    },
    Call::Commit {
        level: 0,
        number: 1,
    },
    Call::Tick,
    Call::Write {
        level: 1,
        number: 2,
        item: 1,
        value: 202,
    },
    Call::Commit {
        level: 3,
        number: 1,
    },
    Call::Commit {
        level: 1,
        number: 2,
    },
];

// The work below, which the pass above finds still going on.
pub const WORK: [Call; 12] = [
    Call::Begin {
        level: 0,
        degree: 0,
    },
    Call::Write {
        level: 0,
        number: 1,
        item: 0,
        value: 101,
    },
    Call::Begin {
        level: 1,
        degree: 0,
    },
    Call::Write {
        level: 1,
        number: 1,
        item: 1,
        value: 201,
    },
    Call::Tick,
    Call::Begin {
        level: 3,
        degree: 0,
    },
    Call::Begin {
        level: 3,
        degree: 100,
    },
    Call::Read {
        level: 3,
        number: 1,
        item: 0,
    },
    Call::Read {
        level: 3,
        number: 1,
        item: 1,
    },
    Call::Read {
        level: 3,
        number: 2,
        item: 0,
    },
    Call::Commit {
        level: 0,
        number: 1,
    },
    Call::Read {
        level: 3,
        number: 2,
        item: 0,
    },
];
