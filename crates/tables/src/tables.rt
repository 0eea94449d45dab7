// The tables of the sixteen levels.
ghost use Rattle.std.specs.Prelude.{◌≡◌, List, length, replicate, slice_index_or, slice_set};
ghost use Rattle.tables.specs.declared.table.Table.{Table};
ghost use Rattle.tables.specs.Tables.{empty_table, filled, freed};

use crate::table::Table;
use std::marker::Model;

// A number that is none of the sixteen levels has no table here: it reads as an empty one, and stays so.
#[derive(Clone, Copy)]
pub struct Tables {
    list: [Table; 16],
}

impl Model for Tables {
    ghost Value = { List Table };

    ghost view = { λ tables. tables.list };

    ghost invariant = { λ tables. length tables.list ≡ 16 };

    ghost inverse = { λ list. record { list = list } };
}

// Any sixteen.
impl From<[Table; 16]> for Tables {
    ghost from_gives = { λ list tables. tables ≡ list };

    fn from(list: [Table; 16]) -> Tables {
        Tables { list }
    }
}

impl Tables {
    // Sixteen empty ones.
    pub fn new() -> Tables
        ensures { result ≡ replicate 16 empty_table }
    {
        Tables {
            list: [Table::new(); 16],
        }
    }

    // By level.
    pub fn as_slice(&self) -> &[Table]
        ensures value { result.now ≡ self.now }
        ensures sixteen { length result.now ≡ 16 }
    {
        &self.list
    }

    // The table of a level; a number that is none of the sixteen has an empty one.
    pub fn of(&self, level: u8) -> Table
        ensures { result ≡ slice_index_or self.now level empty_table }
    {
        // A match: with `unwrap_or` an empty table would be made at every call.
        match self.list.get(usize::from(level)) {
            Some(table) => *table,
            None => Table::new(),
        }
    }

    // A transaction takes a place in the table of its level. By index: `get_mut` tells nothing of the other tables.
    pub fn fill(&mut self, level: u8, at: usize, number: u32, stamp: u32)
        ensures { self.new ≡ slice_set self.old level (filled (slice_index_or self.old level empty_table) at number stamp) }
    {
        let level = usize::from(level);
        if level < self.list.len() {
            self.list[level].fill(at, number, stamp);
        }
    }

    // A place in the table of a level comes free. By index, as in `fill`.
    pub fn clear(&mut self, level: u8, at: usize)
        ensures { self.new ≡ slice_set self.old level (freed (slice_index_or self.old level empty_table) at) }
    {
        let level = usize::from(level);
        if level < self.list.len() {
            self.list[level].clear(at);
        }
    }
}
