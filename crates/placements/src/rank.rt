// Ranking: which stamp has a given number of others before it.
ghost use Rattle.std.specs.Prelude.{◌≡◌, ◌+◌, ◌*◌, ◌/◌, ◌≤◌, min, List, length, MatchOption};
ghost use Rattle.std.specs.List.Sorted.{IsPermutation};
ghost use Rattle.placements.specs.declared.entry.Entry.{Entry};
ghost use Rattle.placements.specs.Ranks.{stamps, ranked, below, has_rank, Rank, share, LeastShare};

use crate::entry::Entry;

// How many of a list of `count` entries a transaction of this degree passes over.
pub fn share(degree: u8, count: usize) -> usize
    ensures value { result ≡ share degree count }
    ensures exact { LeastShare degree count result }
{
    hundredth_rounded_up(hundredths(degree, count)) as usize
}

// The degree times `count`, where more than a hundred count as a hundred.
fn hundredths(degree: u8, count: usize) -> u128
    ensures { result ≡ min degree 100 * count }
{
    u128::from(degree.min(100)) * count as u128
}

fn hundredth_rounded_up(hundredths: u128) -> u128
    ensures { result ≡ (hundredths + 99) / 100 }
{
    hundredths.div_ceil(100)
}

// The stamp of the entry that has `k` others before it when they are sorted upwards, equal stamps all counted.
pub fn ranked(entries: &[Entry], k: usize) -> Option<u32>
    ensures value { result ≡ ranked (stamps entries.now) k }
    ensures rank { MatchOption result (length entries.now ≤ k) (Rank (stamps entries.now) k) }
    ensures any_order { (others : List Entry) → IsPermutation entries.now others → result ≡ ranked (stamps others) k }
{
    entries
        .iter()
        .map(|entry| entry.stamp)
        .find(|stamp| has_rank(entries, k, *stamp))
}

// Whether at most `k` stamps are smaller than `stamp`, and more than `k` are no larger.
fn has_rank(entries: &[Entry], k: usize, stamp: u32) -> bool
    ensures { result ≡ has_rank (stamps entries.now) k stamp }
{
    let stamp = u64::from(stamp);
    below(entries, stamp) <= k && k < below(entries, stamp + 1)
}

// How many stamps are below `limit`. Each adds 0 or 1 to a sum, so the loop has no branch: stamps are in no order, and with
// a branch on each, as `filter` makes it, ranking takes almost three times as long.
fn below(entries: &[Entry], limit: u64) -> usize
    ensures { result ≡ below limit (stamps entries.now) }
{
    entries
        .iter()
        .map(|entry| usize::from(u64::from(entry.stamp) < limit))
        .sum()
}
