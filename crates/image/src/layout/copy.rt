// Any shelf laid out.
ghost use Rattle.image.specs.Laid.{LaidOut};

use crate::layout::LayoutFault;
use crate::layout::all::lay_out_rows;
use crate::layout::rows::Rows;
use shelves::{BLANK, Shelf, Version};

// A shelf, of which the items are copied: a type of its own, since an `impl` for every shelf would overlap with that for plain rows.
#[derive(Drop)]
struct Copied<'a, S> {
    shelf: &'a S,
}

impl<'a, S: Shelf> Rows for Copied<'a, S> {
    ghost items = { λ c. S.items c.shelf.now };

    fn count(&self) -> usize {
        self.shelf.count() as usize
    }

    fn level(&self, item: u32) -> u8 {
        self.shelf.level(item)
    }

    fn versions(&self, item: u32) -> usize {
        self.shelf.versions(item)
    }

    fn places(&self, item: u32) -> [Version; 8] {
        // A plain loop over the versions that there are: `array::from_fn` would ask for all eight.
        let used = self.shelf.versions(item);
        let mut places = [BLANK; 8];
        for place in 0..used {
            places[place] = self.shelf.look(item, place).unwrap_or(BLANK);
        }
        places
    }
}

// Writes the items of a shelf into bytes as an image, or answers the offset of the first faulty field that they would have and changes no byte.
pub fn lay_out_shelf<S: Shelf>(shelf: &S, bytes: &mut [u8]) -> Result<(), LayoutFault>
    ensures { LaidOut (S.Shelf.items shelf.now) bytes.old result bytes.new }
{
    lay_out_rows(&Copied { shelf }, bytes)
}
