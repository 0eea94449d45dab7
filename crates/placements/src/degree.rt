// The placement that stands after a share of the active work below: the degree says how many hundredths.
ghost use Rattle.std.specs.Prelude.{◌≡◌};
ghost use Rattle.placements.specs.Placings.{kept_within, by_degree};
ghost use Rattle.std.proofs.Common.{rules};

use crate::entry::Entry;
use crate::placement::Placement;
use crate::rank::{ranked, share};

#[derive(Clone, Copy)]
pub struct ByDegree;

impl Placement for ByDegree {
    ghost meaning = { λ _. by_degree };

    ghost bounded = { Prim.search rules };

    fn place(&self, degree: u8, lo: u32, hi: u32, entries: &[Entry]) -> u32 {
        let k = share(degree, entries.len());
        let stamp = ranked(entries, k).unwrap_or(hi);
        keep_within(lo, hi, stamp)
    }
}

// Where `lo` lies above `hi` the answer is `lo`; `clamp` has no answer there.
fn keep_within(lo: u32, hi: u32, stamp: u32) -> u32
    ensures { result ≡ kept_within lo hi stamp }
{
    stamp.min(hi).max(lo)
}
