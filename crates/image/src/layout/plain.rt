// Plain rows laid out.
ghost use Rattle.image.specs.Laid.{plain_items, LaidOut};

use crate::layout::all::lay_out_rows;
use crate::layout::rows::Rows;
use crate::layout::{LayoutFault, PlainRow};
use shelves::{BLANK, Version};

// Plain rows, any number of them.
#[derive(Drop)]
struct Plain<'a> {
    rows: &'a [PlainRow<'a>],
}

impl<'a> Rows for Plain<'a> {
    ghost items = { λ p. plain_items p.rows.now };

    fn count(&self) -> usize {
        self.rows.len()
    }

    fn level(&self, item: u32) -> u8 {
        self.rows.get(item as usize).map_or(0, |row| row.level)
    }

    fn versions(&self, item: u32) -> usize {
        self.rows
            .get(item as usize)
            .map_or(0, |row| row.versions.len())
    }

    fn places(&self, item: u32) -> [Version; 8] {
        let mut places = [BLANK; 8];
        if let Some(row) = self.rows.get(item as usize) {
            places[..row.versions.len()].copy_from_slice(row.versions);
        }
        places
    }
}

// Writes plain rows into bytes as an image, or answers the offset of the first faulty field that they would have and changes no byte.
pub fn lay_out(rows: &[PlainRow], bytes: &mut [u8]) -> Result<(), LayoutFault>
    ensures { LaidOut (plain_items rows.now) bytes.old result bytes.new }
{
    lay_out_rows(&Plain { rows }, bytes)
}
