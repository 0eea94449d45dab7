// The items of a drawer.
ghost use Rattle.std.specs.Prelude.{◌≡◌, true, false, [], is_err, MatchOption};
ghost use Rattle.std.specs.Option.{option_map};
ghost use Rattle.std.specs.List.{slice_get};
ghost use Rattle.shelves.specs.Drawers.{entry_item, drawer_items, EntryEdited, DrawerEdited};
ghost use Rattle.shelves.specs.Edits.{accepts};
ghost use Rattle.shelves.specs.Items.{accepts_at, items_after, add_answer, items_with_new, first_item};
ghost use Rattle.shelves.specs.Drawn.{drawer_lawful, drawer_traced};

use crate::drawer::{Drawer, Entry};
use crate::edit::Edit;
use crate::refusal::ShelfRefusal;
use crate::row::Row;
use crate::shelf::Shelf;
use crate::version::Version;

impl Entry {
    fn new(level: u8, value: u64) -> Entry
        ensures { entry_item result ≡ first_item level value }
    {
        Entry {
            level,
            row: Row::first(value),
        }
    }

    // The item after an edit, if that is accepted.
    fn edited(&self, edit: Edit) -> Option<Entry>
        ensures { MatchOption result (accepts edit (entry_item self.now).row ≡ false) (EntryEdited edit self.now) }
    {
        Some(Entry {
            row: self.row.edited(edit)?,
            ..*self
        })
    }
}

impl Drawer {
    pub fn new() -> Drawer
        ensures { drawer_items result ≡ [] }
    {
        Drawer {
            entries: [Entry::new(0, 0); 64],
            count: 0,
        }
    }

    // Adds an item with a first value, as the next number. A sixty-fifth is refused, and then nothing has changed.
    #[tactic(auto, using(crate::specs::Drawn::no_room, crate::specs::Drawn::room_left, crate::specs::Fronts::map_front_push))]
    pub fn add(&mut self, level: u8, value: u64) -> Result<(), ShelfRefusal>
        ensures answer { result ≡ add_answer (drawer_items self.old) }
        ensures after { drawer_items self.new ≡ items_with_new (drawer_items self.old) level value }
        ensures refused { is_err result ≡ true → self.new ≡ self.old }
    {
        if self.count >= 64 {
            return Err(ShelfRefusal::DrawerFull);
        }
        self.entries[self.count as usize] = Entry::new(level, value);
        // One more in fixed memory: the only line that counts.
        self.count += 1;
        Ok(())
    }

    fn entry(&self, item: u32) -> Option<&Entry>
        ensures { option_map (λ entry. entry_item entry.now) result ≡ slice_get (drawer_items self.now) item }
    {
        self.entries[..self.count as usize].get(item as usize)
    }

    #[tactic(auto, using(crate::specs::Drawn::refused_edit, crate::proofs::Stays::items_kept))]
    fn edit(&mut self, item: u32, edit: Edit) -> bool
        ensures answer { result ≡ accepts_at (drawer_items self.old) item edit }
        ensures after { drawer_items self.new ≡ items_after (drawer_items self.old) item edit }
        ensures refused { result ≡ false → self.new ≡ self.old }
        ensures step { result ≡ true → DrawerEdited self.old item edit self.new }
    {
        if item >= self.count {
            return false;
        }
        // A let with an else: a function that answers a bool has no `?`.
        let Some(next) = self.entries[item as usize].edited(edit) else {
            return false;
        };
        self.entries[item as usize] = next;
        true
    }
}

impl Shelf for Drawer {
    ghost items = { drawer_items };

    ghost edits = { DrawerEdited };

    ghost lawful = { λ d. drawer_lawful d };

    ghost traced = { λ d t i e x. drawer_traced d t i e x };

    fn count(&self) -> u32 {
        self.count
    }

    fn level(&self, item: u32) -> u8 {
        self.entry(item).map_or(0, |entry| entry.level)
    }

    fn versions(&self, item: u32) -> usize {
        self.entry(item).map_or(0, |entry| entry.row.len())
    }

    fn look(&self, item: u32, place: usize) -> Option<Version> {
        self.entry(item)?.row.look(place)
    }

    fn put(&mut self, item: u32, place: usize, version: Version) -> bool {
        self.edit(item, Edit::Put(place, version))
    }

    fn insert(&mut self, item: u32, place: usize, version: Version) -> bool {
        self.edit(item, Edit::Insert(place, version))
    }

    fn remove(&mut self, item: u32, place: usize) -> bool {
        self.edit(item, Edit::Remove(place))
    }
}
