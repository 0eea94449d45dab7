// The row rule: 1 to 8 versions, numbers rising, stamps never falling, at least one committed.
ghost use Rattle.std.specs.Prelude.{◌≡◌, Decides};
ghost use Rattle.shelves.specs.Rows.{is_committed, goes_before, in_order, any_committed, keeps_rule, RowRule};

use crate::version::{State, Version};

// Whether a row keeps the rule.
pub fn keeps_rule(row: &[Version]) -> bool
    ensures value { result ≡ keeps_rule row.now }
    ensures exact { Decides result (RowRule row.now) }
{
    (1..=8).contains(&row.len()) && in_order(row) && any_committed(row)
}

fn goes_before(v: &Version, w: &Version) -> bool
    ensures { result ≡ goes_before v.now w.now }
{
    v.number < w.number && v.stamp <= w.stamp
}

fn in_order(row: &[Version]) -> bool
    ensures { result ≡ in_order row.now }
{
    row.is_sorted_by(goes_before)
}

fn is_committed(version: &Version) -> bool
    ensures { result ≡ is_committed version.now.state }
{
    version.state == State::Committed
}

// Whether one of the versions is committed.
pub fn any_committed(row: &[Version]) -> bool
    ensures { result ≡ any_committed row.now }
{
    row.iter().any(is_committed)
}
