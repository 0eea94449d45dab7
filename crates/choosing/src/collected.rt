// The active transactions at the levels that a level dominates, by level, then place.
ghost use Rattle.std.specs.Prelude.{◌≡◌, ◌+◌, ◌<◌, ◌≤◌, [], ◌∷◌, ◌++◌, length};
ghost use Rattle.tables.specs.Tables.{actives};

use std::marker::Model;
use tables::{Active, Place};

// An array and a count, since nothing is allocated; there are at most eight for each of sixteen levels.
// The places that are not in use hold nobody, so that the list gives the fields back: that makes it Copy.
#[derive(Clone, Copy)]
pub struct Collected {
    pub(crate) list: [Active; 128],
    pub(crate) count: usize,
}

impl Model for Collected {
    ghost use Rattle.std.specs.Prelude.{◌≡◌, ◌≤◌, List, length, take};
    ghost use Rattle.tables.specs.declared.place.Active.{Active};
    ghost use Rattle.choosing.specs.Places.{nobody, in_places};
    ghost use Rattle.std.proofs.Common.{arith, sym, length-take-le};

    ghost Value = { List Active };

    ghost view = { λ found. take found.count found.list };

    ghost invariant = { λ found. (found.count ≤ 128) × (length found.list ≡ 128) × (found.list ≡ in_places nobody (take found.count found.list)) };

    ghost inverse = { λ list. record { list = in_places nobody list; count = length list } };

    ghost inverse_ok = { λ found ok i. record {
      list = sym ok.2 i;
      count = length-take-le found.count found.list (omega (arith, ok.0, ok.1)) i;
    } };
}

// Any transactions, as many as there are places.
impl From<[Active; 128]> for Collected {
    ghost from_gives = { λ actives found. found ≡ actives };

    fn from(actives: [Active; 128]) -> Collected {
        Collected {
            list: actives,
            count: 128,
        }
    }
}

const NOBODY: Active = Active {
    stamp: 0,
    level: 0,
    number: 0,
};

impl Collected {
    pub(crate) fn new() -> Collected
        ensures { result ≡ [] }
    {
        Collected {
            list: [NOBODY; 128],
            count: 0,
        }
    }

    pub fn as_slice(&self) -> &[Active]
        ensures value { result.now ≡ self.now }
        ensures few { length result.now ≤ 128 }
    {
        &self.list[..self.count]
    }

    fn push(&mut self, active: Active)
        requires { length self.old < 128 }
        ensures { self.new ≡ self.old ++ active ∷ [] }
    {
        self.list[self.count] = active;
        // One more in fixed memory: the only line that counts.
        self.count += 1;
    }

    // The transactions of one level, by place.
    pub(crate) fn push_places(&mut self, level: u8, places: &[Place; 8])
        requires { length self.old ≤ 120 }
        ensures list { self.new ≡ self.old ++ actives level places.now }
        ensures few { length self.new ≤ length self.old + 8 }
    {
        for place in places {
            if let Place::Open(number, stamp) = *place {
                self.push(Active {
                    stamp,
                    level,
                    number,
                });
            }
        }
    }
}
