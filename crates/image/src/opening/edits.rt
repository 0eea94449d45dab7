// Edits of an image.
ghost use Rattle.std.specs.Prelude.{◌≡◌, ◌+◌, ◌≤◌, true, false, ◌++◌, length, MatchOption};
ghost use Rattle.std.specs.List.{slice_get};
ghost use Rattle.std.specs.Option.{option_map};
ghost use Rattle.shelves.specs.Items.{accepts_at, items_after};
ghost use Rattle.shelves.specs.RowEdits.{versions};
ghost use Rattle.fields.specs.Written.{row_bytes, pasted};
ghost use Rattle.image.specs.Decided.{EditFits, RowsEdited};
ghost use Rattle.image.specs.Opened.{bytes_of, items_of, ImageEdited};
ghost use Rattle.image.specs.Writes.{freed};

use crate::offsets;
use crate::opening::Image;
use fields::write_row;
use shelves::{BLANK, Edit, Row, Shelf};

// Writes a row in place of another, with zeros in a place that comes free.
fn replace_row(bytes: &mut [u8], start: usize, before: &Row, after: &Row)
    requires { start + 192 ≤ length bytes.old }
    ensures { bytes.new ≡ pasted bytes.old start (row_bytes (versions after.now ++ freed (length (versions before.now)) (length (versions after.now)))) }
{
    write_row(bytes, start, after.as_slice());
    if after.len() < before.len() {
        write_row(bytes, start + 24 * after.len(), &[BLANK]);
    }
}

impl Image {
    // The row of an item, if there is such an item.
    // Its places are looked at here: of the image as any shelf, whose edits need this row, the call would go in a circle.
    fn row(&self, item: u32) -> Option<Row>
        ensures { option_map versions result ≡ option_map (λ it. it.row) (slice_get (items_of self.now) item) }
    {
        // A plain loop over the versions that there are, for the same reason as in lay-out.
        let used = self.versions(item);
        let mut places = [BLANK; 8];
        for place in 0..used {
            places[place] = self.look(item, place).unwrap_or(BLANK);
        }
        Row::new(places, used)
    }

    // The row of an item and what an edit makes of it, if the edit is accepted.
    fn edited(&self, item: u32, edit: Edit) -> Option<(Row, Row)>
        ensures { MatchOption result (accepts_at (items_of self.now) item edit ≡ false) (RowsEdited (bytes_of self.now) item edit) }
    {
        // What can be told by numbers is told before a version is read.
        if item >= self.count() || !edit.fits(self.versions(item)) {
            return None;
        }
        let before = self.row(item)?;
        let after = before.edited(edit)?;
        Some((before, after))
    }

    pub(super) fn edit(&mut self, item: u32, edit: Edit) -> bool
        requires { EditFits edit }
        ensures answer { result ≡ accepts_at (items_of self.old) item edit }
        ensures after { items_of self.new ≡ items_after (items_of self.old) item edit }
        ensures refused { result ≡ false → self.new ≡ self.old }
        ensures step { result ≡ true → ImageEdited self.old item edit self.new }
    {
        // A let with an else: a function that answers a bool has no `?`.
        let Some((before, after)) = self.edited(item, edit) else {
            return false;
        };
        let start = self.start(item);
        let bytes = self.bytes.as_mut_slice();
        replace_row(bytes, start, &before, &after);
        bytes[offsets::used(item)] = after.len() as u8;
        true
    }
}
