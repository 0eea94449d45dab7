// A place of a level's table, and what is told of the transaction that it holds.
ghost use Rattle.std.specs.Prelude.{◌≡◌};
ghost use Rattle.tables.specs.declared.place.Place.TheVariants.{Free, Open};
ghost use Rattle.tables.specs.Places.{is_free, stamp_of};

// It is an enum of its own: a place tells its state, and is lent to be filled or freed.
#[derive(Clone, Copy, PartialEq, Eq, Debug)]
pub enum Place {
    Free,
    // An active transaction: its begin number and its stamp.
    Open(u32, u32),
}

// Where in its table an active transaction stands, and its stamp.
#[derive(Clone, Copy, PartialEq, Eq, Debug)]
pub struct Held {
    pub place: usize,
    pub stamp: u32,
}

// An active transaction as it is known outside its level; in order by stamp, then level, then number, as the fields stand.
#[derive(Clone, Copy, PartialEq, Eq, PartialOrd, Ord, Debug)]
pub struct Active {
    pub stamp: u32,
    pub level: u8,
    pub number: u32,
}

impl Place {
    pub(crate) fn is_free(&self) -> bool
        ensures { result ≡ is_free self.now }
    {
        matches!(self, Place::Free)
    }

    // The stamp of transaction `number`, if the place holds it.
    pub(crate) fn stamp_of(&self, number: u32) -> Option<u32>
        ensures { result ≡ stamp_of number self.now }
    {
        match self {
            Place::Open(other, stamp) if *other == number => Some(*stamp),
            _ => None,
        }
    }

    pub(crate) fn fill(&mut self, number: u32, stamp: u32)
        ensures { self.new ≡ Open number stamp }
    {
        *self = Place::Open(number, stamp);
    }

    pub(crate) fn clear(&mut self)
        ensures { self.new ≡ Free }
    {
        *self = Place::Free;
    }
}
