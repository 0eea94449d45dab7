// How rows are made, and what an edit makes of one.
ghost use Rattle.std.specs.Prelude.{◌≡◌, false, MatchOption};
ghost use Rattle.shelves.specs.Edits.{accepts};
ghost use Rattle.shelves.specs.RowEdits.{versions, first_row, makes_row, RowMade, RowEdited};

use crate::edit::{BLANK, Edit};
use crate::row::Row;
use crate::rule::keeps_rule;
use crate::version::Version;

impl Row {
    // The row of the first `count` of eight places, if they keep the rule.
    pub fn new(places: [Version; 8], count: usize) -> Option<Row>
        ensures { MatchOption result (makes_row places count ≡ false) (RowMade places count) }
    {
        if !keeps_rule(places.get(..count)?) {
            return None;
        }
        Some(Row { count, places })
    }

    // The row of one first value, which is committed.
    pub(crate) fn first(value: u64) -> Row
        ensures { versions result ≡ first_row value }
    {
        let mut places = [BLANK; 8];
        places[0].value = value;
        Row { count: 1, places }
    }

    // The row after an edit, if that is accepted.
    pub fn edited(&self, edit: Edit) -> Option<Row>
        ensures { MatchOption result (accepts edit (versions self.now) ≡ false) (RowEdited edit self.now) }
    {
        if !edit.fits(self.count) {
            return None;
        }
        // A ninth version is refused before the places are made.
        let count = edit.count_after(self.count as u8);
        if count > 8 {
            return None;
        }
        let places = edit.places_after(&self.places);
        if !keeps_rule(&places[..count]) {
            return None;
        }
        Some(Row { count, places })
    }
}
