// The placement that stands at the clock, after all active work below.
ghost use Rattle.placements.specs.Placings.{at_clock};
ghost use Rattle.std.proofs.Common.{rules};

use crate::entry::Entry;
use crate::placement::Placement;

#[derive(Clone, Copy)]
pub struct AtClock;

impl Placement for AtClock {
    ghost meaning = { λ _. at_clock };

    ghost bounded = { Prim.search rules };

    fn place(&self, _degree: u8, lo: u32, hi: u32, _entries: &[Entry]) -> u32 {
        hi.max(lo)
    }
}
