// Edits of a shelf, each with what it leaves of the items and of the memory: two clauses each, since callers use either alone.
ghost use Rattle.std.specs.Prelude.{◌≡◌};
ghost use Rattle.shelves.specs.Items.{items_after};
ghost use Rattle.rules.specs.States.{edits_of, items_through};
ghost use Rattle.rules.specs.Steps.{read_edits, write_edits};
ghost use Rattle.steps.specs.Traces.{edit_at, Edited, Traced};

use rules::{Reading, Writing};
use shelves::{Edit, Shelf};

// One edit of an item's row.
pub fn apply<S: Shelf>(shelf: &mut S, item: u32, edit: Edit)
    ensures after { S.Shelf.items shelf.new ≡ items_after (S.Shelf.items shelf.old) item edit }
    ensures traced { Edited S.Shelf.items S.Shelf.edits shelf.old (edit_at item edit) shelf.new }
{
    let _ = match edit {
        Edit::Put(place, version) => shelf.put(item, place, version),
        Edit::Insert(place, version) => shelf.insert(item, place, version),
        Edit::Remove(place) => shelf.remove(item, place),
    };
}

// The mark of a read.
pub fn apply_reading<S: Shelf>(shelf: &mut S, item: u32, reading: Reading)
    ensures after { S.Shelf.items shelf.new ≡ items_through (S.Shelf.items shelf.old) (edits_of item (read_edits reading)) }
    ensures traced { Traced S.Shelf.items S.Shelf.edits shelf.old (edits_of item (read_edits reading)) shelf.new }
{
    if let Some(edit) = reading.edit {
        apply(shelf, item, edit);
    }
}

// The drop of the oldest version, where it goes, and the new version.
pub fn apply_writing<S: Shelf>(shelf: &mut S, item: u32, writing: Writing)
    ensures after { S.Shelf.items shelf.new ≡ items_through (S.Shelf.items shelf.old) (edits_of item (write_edits writing)) }
    ensures traced { Traced S.Shelf.items S.Shelf.edits shelf.old (edits_of item (write_edits writing)) shelf.new }
{
    if writing.drop {
        apply(shelf, item, Edit::Remove(0));
    }
    apply(shelf, item, writing.edit);
}
