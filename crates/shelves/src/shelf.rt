// A shelf holds items with their levels and rows of versions.
ghost use Rattle.std.specs.Prelude.{◌≡◌, ℕ, true, false, List, length};
ghost use Rattle.std.specs.List.{slice_get};
ghost use Rattle.shelves.specs.Items.{Item, ShelfLaws, level_of, row_of, accepts_at, items_after};
ghost use Rattle.shelves.specs.declared.edit.Edit.{Edit};

use crate::edit::Edit;
use crate::version::Version;

pub trait Shelf {
    // The items, with their levels and rows.
    ghost items: { Self → List Item };

    // What an accepted edit of an item makes of the whole value, memory that no row uses included.
    ghost edits: { Self → ℕ → Edit → Self → Type 0 };

    // Questions.

    // How many items there are.
    fn count(&self) -> u32
        ensures { result ≡ length (items self.now) };

    // The level of an item; 0 for an unknown one.
    fn level(&self, item: u32) -> u8
        ensures { result ≡ level_of (items self.now) item };

    // The number of versions of an item; 0 for an unknown one.
    fn versions(&self, item: u32) -> usize
        ensures { result ≡ length (row_of (items self.now) item) };

    // The version at a place of an item's row, if there is one.
    fn look(&self, item: u32, place: usize) -> Option<Version>
        ensures { result ≡ slice_get (row_of (items self.now) item) place };

    // Edits. Each says whether it was accepted; if not, the shelf is as it was. Yes or no, since that is all that there is to
    // say: an error would have nothing to add.

    fn put(&mut self, item: u32, place: usize, version: Version) -> bool
        ensures answer { result ≡ accepts_at (items self.old) item (Edit.Put place version) }
        ensures after { items self.new ≡ items_after (items self.old) item (Edit.Put place version) }
        ensures refused { result ≡ false → self.new ≡ self.old }
        ensures step { result ≡ true → edits self.old item (Edit.Put place version) self.new };

    fn insert(&mut self, item: u32, place: usize, version: Version) -> bool
        ensures answer { result ≡ accepts_at (items self.old) item (Edit.Insert place version) }
        ensures after { items self.new ≡ items_after (items self.old) item (Edit.Insert place version) }
        ensures refused { result ≡ false → self.new ≡ self.old }
        ensures step { result ≡ true → edits self.old item (Edit.Insert place version) self.new };

    fn remove(&mut self, item: u32, place: usize) -> bool
        ensures answer { result ≡ accepts_at (items self.old) item (Edit.Remove place) }
        ensures after { items self.new ≡ items_after (items self.old) item (Edit.Remove place) }
        ensures refused { result ≡ false → self.new ≡ self.old }
        ensures step { result ≡ true → edits self.old item (Edit.Remove place) self.new };

    ghost lawful: { (s : Self) → ShelfLaws (items s) };

    ghost traced: { (s t : Self) (i : ℕ) (e : Edit) → edits s i e t → items t ≡ items_after (items s) i e };
}
