// The versions of a row.
ghost use Rattle.std.specs.Prelude.{◌≡◌, length};
ghost use Rattle.std.specs.List.{slice_get};
ghost use Rattle.shelves.specs.RowEdits.{versions};

use crate::row::Row;
use crate::version::Version;

impl Row {
    pub fn as_slice(&self) -> &[Version]
        ensures { result.now ≡ versions self.now }
    {
        &self.places[..self.count]
    }

    pub fn len(&self) -> usize
        ensures { result ≡ length (versions self.now) }
    {
        self.as_slice().len()
    }

    // The version at a place, if there is one.
    pub fn look(&self, place: usize) -> Option<Version>
        ensures { result ≡ slice_get (versions self.now) place }
    {
        self.as_slice().get(place).copied()
    }
}
