// The table of a level.
ghost use Rattle.std.specs.Prelude.{◌≡◌};
ghost use Rattle.tables.specs.Tables.{empty_table, held, first_free, filled, freed};

use crate::place::{Held, Place};

#[derive(Clone, Copy, PartialEq, Eq, Debug)]
pub struct Table {
    // The last begin number given; 0 at first.
    pub number: u32,
    // The last stamp given; 0 at first.
    pub stamp: u32,
    pub places: [Place; 8],
}

impl Table {
    // Eight free places, and nothing given yet.
    pub fn new() -> Table
        ensures { result ≡ empty_table }
    {
        Table {
            number: 0,
            stamp: 0,
            places: [Place::Free; 8],
        }
    }

    // Where transaction `number` stands, if it is active.
    pub fn find(&self, number: u32) -> Option<Held>
        ensures { result ≡ held self.now number }
    {
        self.places.iter().enumerate().find_map(|(at, place)| {
            let stamp = place.stamp_of(number)?;
            Some(Held { place: at, stamp })
        })
    }

    pub fn first_free(&self) -> Option<usize>
        ensures { result ≡ first_free self.now }
    {
        self.places.iter().position(|place| place.is_free())
    }

    // A transaction takes a place; one past the eighth is none. Place, number and stamp one by one, as `filled` has them.
    // By index: `get_mut` tells nothing of the other places.
    pub fn fill(&mut self, at: usize, number: u32, stamp: u32)
        ensures { self.new ≡ filled self.old at number stamp }
    {
        self.number = number;
        self.stamp = stamp;
        if at < self.places.len() {
            self.places[at].fill(number, stamp);
        }
    }

    // A place comes free. By index, as in `fill`.
    pub fn clear(&mut self, at: usize)
        ensures { self.new ≡ freed self.old at }
    {
        if at < self.places.len() {
            self.places[at].clear();
        }
    }
}
