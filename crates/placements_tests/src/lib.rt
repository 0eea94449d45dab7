// Tests of the placements, and generic code in a crate of its own that relies on their bounds.
#![tactic(auto)]

ghost use Rattle.std.specs.Prelude.{◌≡◌, ◌<◌, ◌≤◌, true};
ghost use Rattle.placements.specs.Cases.{share_rounds_up, degrees_pass_over};

use placements::{Entry, Placement};

#[cfg(test)]
mod questions;
#[cfg(test)]
mod ranks;

// The worked cases of degrees hold.
pub fn degrees_pass_over()
    ensures rounding { share_rounds_up ≡ true }
    ensures placing { degrees_pass_over ≡ true }
{}

// What any placement answers lies within its bounds.
pub fn placed<P: Placement>(placement: &P, degree: u8, lo: u32, hi: u32, entries: &[Entry]) -> u32
    ensures value { result ≡ P.Placement.meaning placement.now degree lo hi entries.now }
    ensures low { lo ≤ result }
    ensures high { lo ≤ hi → result ≤ hi }
    ensures empty { hi < lo → result ≡ lo }
{
    placement.place(degree, lo, hi, entries)
}
