// The collected transactions as a placement sees them.
ghost use Rattle.std.specs.Prelude.{◌≡◌, ◌<◌, [], ◌∷◌, ◌++◌, length, map};
ghost use Rattle.rules.specs.Watermarks.{entry};

use crate::collected::Collected;
use placements::Entry;
use std::marker::Model;
use tables::Active;

// As many as were collected. A struct beside `Collected`: one for both would hold an array of a type parameter, of which no
// size is known.
#[derive(Clone, Copy)]
pub struct Entries {
    list: [Entry; 128],
    count: usize,
}

impl Model for Entries {
    ghost use Rattle.std.specs.Prelude.{◌≡◌, ◌≤◌, List, length, take};
    ghost use Rattle.std.proofs.Common.{arith, sym, length-take-le};
    ghost use Rattle.placements.specs.declared.entry.Entry.{Entry};
    ghost use Rattle.choosing.specs.Places.{no_entry, in_places};

    ghost Value = { List Entry };

    ghost view = { λ entries. take entries.count entries.list };

    ghost invariant = { λ entries. (entries.count ≤ 128) × (length entries.list ≡ 128) × (entries.list ≡ in_places no_entry (take entries.count entries.list)) };

    ghost inverse = { λ list. record { list = in_places no_entry list; count = length list } };

    ghost inverse_ok = { λ entries ok i. record {
      list = sym ok.2 i;
      count = length-take-le entries.count entries.list (omega (arith, ok.0, ok.1)) i;
    } };
}

const NO_ENTRY: Entry = Entry { level: 0, stamp: 0 };

impl Entries {
    fn new() -> Entries
        ensures { result ≡ [] }
    {
        Entries {
            list: [NO_ENTRY; 128],
            count: 0,
        }
    }

    pub fn as_slice(&self) -> &[Entry]
        ensures { result.now ≡ self.now }
    {
        &self.list[..self.count]
    }

    fn push(&mut self, entry: Entry)
        requires { length self.old < 128 }
        ensures { self.new ≡ self.old ++ entry ∷ [] }
    {
        self.list[self.count] = entry;
        // One more in fixed memory: the only line that counts.
        self.count += 1;
    }
}

// A function: both types belong to other crates, so that no `From` between them can stand here.
fn entry_of(active: Active) -> Entry
    ensures { result ≡ entry active }
{
    Entry {
        level: active.level,
        stamp: active.stamp,
    }
}

impl Collected {
    // Level and stamp of each. One by one: a `map` of the array would go over all its places, used or not, several times.
    pub fn entries(&self) -> Entries
        ensures { result ≡ map entry self.now }
    {
        let mut entries = Entries::new();
        for active in self.as_slice() {
            entries.push(entry_of(*active));
        }
        entries
    }
}
