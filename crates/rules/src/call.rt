// The calls of a scheduler.

// A level and a begin number at it, which together name a transaction.
#[derive(Clone, Copy, PartialEq, Eq, Debug)]
pub struct TransactionId {
    pub level: u8,
    pub number: u32,
}

// Its cases are the lines of a script, field by field, and every law names level and number one by one, so the two stand apart.
#[derive(Clone, Copy, PartialEq, Eq, Debug)]
pub enum Call {
    // Advances the clock.
    Tick,
    // Starts a transaction at a level, with a degree from 0 to 100.
    Begin {
        level: u8,
        degree: u8,
    },
    // Transaction `number` of a level reads an item.
    Read {
        level: u8,
        number: u32,
        item: u32,
    },
    // It writes an item.
    Write {
        level: u8,
        number: u32,
        item: u32,
        value: u64,
    },
    // It ends, and its versions stay.
    Commit {
        level: u8,
        number: u32,
    },
    // It ends, and its versions go.
    Abort {
        level: u8,
        number: u32,
    },
}
