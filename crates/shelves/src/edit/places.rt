// What an edit makes of eight places, of which a row uses the first ones.
ghost use Rattle.std.specs.Prelude.{◌≡◌};
ghost use Rattle.shelves.specs.Edits.{fits, count_after, places_after};
ghost use Rattle.shelves.specs.declared.edit.Edit.TheVariants.{Put, Insert, Remove};

use crate::edit::Edit;
use crate::version::{State, Version};

// A version of zeros.
pub const BLANK: Version = Version {
    number: 0,
    stamp: 0,
    mark: 0,
    state: State::Committed,
    value: 0,
};

impl Edit {
    // Whether the place fits a row of `count` versions.
    pub fn fits(self, count: usize) -> bool
        ensures { result ≡ fits self count }
    {
        match self {
            Edit::Put(place, _) | Edit::Remove(place) => place < count,
            Edit::Insert(place, _) => place <= count,
        }
    }

    // How many versions there are afterwards.
    pub fn count_after(self, count: u8) -> usize
        ensures { result ≡ count_after self count }
    {
        let count = count as usize;
        match self {
            Edit::Put(..) => count,
            Edit::Insert(..) => count + 1,
            Edit::Remove(_) => count.saturating_sub(1),
        }
    }

    // All eight places afterwards.
    pub fn places_after(self, places: &[Version; 8]) -> [Version; 8]
        ensures { result ≡ places_after self places.now }
    {
        match self {
            Edit::Put(place, version) => put(places, place, version),
            Edit::Insert(place, version) => inserted(places, place, version),
            Edit::Remove(place) => removed(places, place),
        }
    }
}

// One loop for each kind of edit, and not one that asks for the kind at each place: an edit is told apart once.

// Another version at a place.
fn put(places: &[Version; 8], place: usize, version: Version) -> [Version; 8]
    ensures { result ≡ places_after (Put place version) places.now }
{
    let mut next = [BLANK; 8];
    for j in 0..8 {
        next[j] = if j == place { version } else { places[j] };
    }
    next
}

// A version more, and those from its place on one place further.
fn inserted(places: &[Version; 8], place: usize, version: Version) -> [Version; 8]
    ensures { result ≡ places_after (Insert place version) places.now }
{
    let mut next = [BLANK; 8];
    for j in 0..8 {
        next[j] = if j < place {
            places[j]
        } else if j == place {
            version
        } else {
            places[j - 1]
        };
    }
    next
}

// A version less, and those behind it one place nearer.
fn removed(places: &[Version; 8], place: usize) -> [Version; 8]
    ensures { result ≡ places_after (Remove place) places.now }
{
    let mut next = [BLANK; 8];
    for j in 0..8 {
        next[j] = if j < place {
            places[j]
        } else if j < 7 {
            places[j + 1]
        } else {
            BLANK
        };
    }
    next
}
