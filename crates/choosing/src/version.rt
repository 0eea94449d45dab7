// The choice of a version of a row.
ghost use Rattle.std.specs.Prelude.{◌≡◌};
ghost use Rattle.shelves.specs.Items.{row_of};
ghost use Rattle.rules.specs.Choices.{last_that};
ghost use Rattle.choosing.specs.Wants.{passes, later};

use rules::Chosen;
use shelves::{Shelf, Version};

// What is asked of a version.
// It is an enum, and no closure: a public function asks nothing of its caller.
#[derive(Clone, Copy, PartialEq, Eq, Debug)]
pub enum Wanted {
    // Written by this transaction.
    Numbered(u32),
    // With a number not above this one.
    UpTo(u32),
    // With a number below this one.
    Before(u32),
    // With a stamp strictly below this one.
    OlderThan(u32),
}

impl Wanted {
    pub fn fits(self, version: Version) -> bool
        ensures { result ≡ passes self version }
    {
        match self {
            Wanted::Numbered(number) => version.number == number,
            Wanted::UpTo(number) => version.number <= number,
            Wanted::Before(number) => version.number < number,
            Wanted::OlderThan(stamp) => version.stamp < stamp,
        }
    }
}

// The version at a place if it fits, otherwise the best so far.
fn later(
    best: Option<Chosen>,
    place: usize,
    found: Option<Version>,
    wanted: Wanted,
) -> Option<Chosen>
    ensures { result ≡ later (passes wanted) best place found }
{
    found
        .filter(|version| wanted.fits(*version))
        .map(|version| Chosen { place, version })
        .or(best)
}

// The last version of an item that fits.
pub fn choose<S: Shelf>(shelf: &S, item: u32, wanted: Wanted) -> Option<Chosen>
    ensures { result ≡ last_that (passes wanted) (row_of (S.Shelf.items shelf.now) item) }
{
    (0..shelf.versions(item)).fold(None, |best, place| {
        later(best, place, shelf.look(item, place), wanted)
    })
}
