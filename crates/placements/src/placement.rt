// A placement decides the stamp of a new transaction, from nothing but the question it is asked.
ghost use Rattle.std.specs.Prelude.{◌≡◌, ℕ, List};
ghost use Rattle.placements.specs.declared.entry.Entry.{Entry};
ghost use Rattle.placements.specs.Placings.{Placing, Within};

use crate::entry::Entry;

pub trait Placement {
    // The answer, as a function of the question alone.
    ghost meaning: { Self → Placing };

    fn place(&self, degree: u8, lo: u32, hi: u32, entries: &[Entry]) -> u32
        ensures { result ≡ meaning self.now degree lo hi entries.now };

    // Every answer of every kind lies from the lowest to the highest stamp, and is the lowest where that is above
    // the highest.
    ghost bounded: { (p : Self) (degree lo hi : ℕ) (entries : List Entry) → Within lo hi (meaning p degree lo hi entries) };
}
