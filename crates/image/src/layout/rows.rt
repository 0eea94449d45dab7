// What can be laid out.
ghost use Rattle.std.specs.Prelude.{◌≡◌, ◌≤◌, List, length};
ghost use Rattle.shelves.specs.Items.{Item, level_of, row_of};
ghost use Rattle.image.specs.Laid.{filled};

use shelves::Version;

// Items that are asked for by their numbers, with rows of any number of versions.
pub(super) trait Rows {
    // The items, with their levels and rows.
    ghost items: { Self → List Item };

    // How many items there are.
    fn count(&self) -> usize
        ensures { result ≡ length (items self.now) };

    // The level of an item; 0 for an unknown one.
    fn level(&self, item: u32) -> u8
        ensures { result ≡ level_of (items self.now) item };

    // The number of versions of an item; 0 for an unknown one.
    fn versions(&self, item: u32) -> usize
        ensures { result ≡ length (row_of (items self.now) item) };

    // Eight places: an item's row, then zeros. A plain row may have more than eight versions, so that no type of rows says here,
    // where a row is written and where its versions are tested, that there are no more.
    fn places(&self, item: u32) -> [Version; 8]
        requires { length (row_of (items self.now) item) ≤ 8 }
        ensures { result ≡ filled (row_of (items self.now) item) };
}
