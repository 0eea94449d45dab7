// An image as a shelf.
ghost use Rattle.std.specs.Prelude.{◌≡◌, length};
ghost use Rattle.shelves.specs.Items.{level_of, row_of};
ghost use Rattle.image.specs.Layout.{row_start};
ghost use Rattle.image.specs.Opened.{bytes_of, items_of, ImageEdited};
ghost use Rattle.image.specs.Shelved.{image_lawful, image_traced};

use crate::offsets;
use crate::opening::Image;
use fields::{read_version, read32};
use shelves::{Edit, Shelf, Version};

impl Image {
    // Where an item's first place begins.
    pub(super) fn start(&self, item: u32) -> usize
        ensures { result ≡ row_start (bytes_of self.now) item }
    {
        offsets::row_start(self.count(), item)
    }

    // The level of an item and the number of its versions; zeros for an unknown one.
    fn head(&self, item: u32) -> (u8, u8)
        ensures level { result.0 ≡ level_of (items_of self.now) item }
        ensures versions { result.1 ≡ length (row_of (items_of self.now) item) }
    {
        if item >= self.count() {
            return (0, 0);
        }
        let bytes = self.as_slice();
        (bytes[offsets::level(item)], bytes[offsets::used(item)])
    }
}

impl Shelf for Image {
    ghost items = { items_of };

    ghost edits = { ImageEdited };

    ghost lawful = { λ m. image_lawful m.bytes.items m.ok };

    ghost traced = { λ m n i e x. image_traced m.bytes.items n.bytes.items i e m.ok x };

    fn count(&self) -> u32 {
        read32(self.as_slice(), 0)
    }

    fn level(&self, item: u32) -> u8 {
        self.head(item).0
    }

    fn versions(&self, item: u32) -> usize {
        self.head(item).1 as usize
    }

    fn look(&self, item: u32, place: usize) -> Option<Version> {
        if place >= self.versions(item) {
            return None;
        }
        Some(read_version(self.as_slice(), self.start(item) + 24 * place))
    }

    fn put(&mut self, item: u32, place: usize, version: Version) -> bool {
        self.edit(item, Edit::Put(place, version))
    }

    fn insert(&mut self, item: u32, place: usize, version: Version) -> bool {
        self.edit(item, Edit::Insert(place, version))
    }

    fn remove(&mut self, item: u32, place: usize) -> bool {
        self.edit(item, Edit::Remove(place))
    }
}
