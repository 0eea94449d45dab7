// The placement that stands as far back as it may, behind all active work below.
ghost use Rattle.placements.specs.Placings.{behind};
ghost use Rattle.std.proofs.Common.{rules};

use crate::entry::Entry;
use crate::placement::Placement;

#[derive(Clone, Copy)]
pub struct Behind;

impl Placement for Behind {
    ghost meaning = { λ _. behind };

    ghost bounded = { Prim.search rules };

    fn place(&self, _degree: u8, lo: u32, _hi: u32, _entries: &[Entry]) -> u32 {
        lo
    }
}
