// The head and one item written into bytes.
ghost use Rattle.std.specs.Prelude.{◌≡◌, ◌<◌, ◌≤◌, length};
ghost use Rattle.std.specs.List.{AllByRecursion};
ghost use Rattle.fields.specs.Written.{VersionFits, pasted};
ghost use Rattle.shelves.specs.Items.{row_of};
ghost use Rattle.image.specs.Laid.{filled, head_bytes, item_of, item_written};
ghost use Rattle.image.specs.Layout.{whole};

use crate::layout::fitting::Fitting;
use crate::layout::rows::Rows;
use crate::offsets;
use fields::{write_row, write32};

impl<R: Rows> Fitting<'_, R> {
    // How many items, and how many bytes. How long the bytes are is asked here and at `write_item`: they are lent to be written,
    // so that no type of rows holds it.
    pub(super) fn write_head(&self, bytes: &mut [u8])
        requires { length bytes.old ≡ whole (length (R.items self.now.rows.now)) }
        ensures { bytes.new ≡ pasted bytes.old 0 (head_bytes (length (R.items self.now.rows.now))) }
    {
        write32(bytes, 0, self.count());
        write32(bytes, 4, offsets::whole(self.count()) as u32);
    }

    // An item's level, its number of versions and its places.
    pub(super) fn write_item(&self, item: u32, bytes: &mut [u8])
        requires known { item < length (R.items self.now.rows.now) }
        requires all { length bytes.old ≡ whole (length (R.items self.now.rows.now)) }
        requires short { length (row_of (R.items self.now.rows.now) item) ≤ 8 }
        ensures after { bytes.new ≡ item_written bytes.old (length (R.items self.now.rows.now)) item (item_of (R.items self.now.rows.now) item) }
        ensures fits { AllByRecursion VersionFits (filled (row_of (R.items self.now.rows.now) item)) }
    {
        bytes[offsets::level(item)] = self.rows.level(item);
        bytes[offsets::used(item)] = self.rows.versions(item) as u8;
        let start = offsets::row_start(self.count(), item);
        write_row(bytes, start, &self.rows.places(item));
    }
}
