// The first faulty field that rows would have as an image.
ghost use Rattle.std.specs.Prelude.{◌≡◌, ◌+◌, ◌*◌, ◌<◌, ◌≤◌, length};
ghost use Rattle.shelves.specs.Items.{level_of, row_of};
ghost use Rattle.image.specs.Laid.{next_fault, versions_fault, plain_fault, plain_faults, head_fault, rows_fault, laid_answer};

use crate::layout::LayoutFault;
use crate::layout::fitting::Fitting;
use crate::layout::rows::Rows;
use crate::offsets;
use shelves::{Version, any_committed};

// How many items, then how many bytes.
fn check_head(count: usize, length: usize) -> Result<(), LayoutFault>
    ensures { result ≡ laid_answer (head_fault count length) }
{
    if length < 8 || !(1..=4096).contains(&count) {
        return Err(LayoutFault { offset: 0 });
    }
    if length != offsets::whole(count as u32) {
        return Err(LayoutFault { offset: 4 });
    }
    Ok(())
}

// A version right behind another, at an offset.
fn check_next(before: &Version, version: &Version, at: usize) -> Result<(), LayoutFault>
    requires { at < 1000000 }
    ensures { result ≡ laid_answer (next_fault before.now version.now at) }
{
    if version.number <= before.number {
        return Err(LayoutFault { offset: at });
    }
    if version.stamp < before.stamp {
        return Err(LayoutFault { offset: at + 4 });
    }
    Ok(())
}

// Versions of which the first stands at an offset, each behind the one before it.
fn check_versions(versions: &[Version], start: usize) -> Result<(), LayoutFault>
    requires some { 1 ≤ length versions.now }
    requires few { length versions.now ≤ 8 }
    requires low { start < 900000 }
    ensures { result ≡ laid_answer (versions_fault versions.now start) }
{
    versions.iter().zip(&versions[1..]).enumerate().try_for_each(|(j, (before, version))| {
        check_next(before, version, start + 24 * (j + 1))
    })
}

impl<R: Rows> Fitting<'_, R> {
    // An item: its level, its number of versions, then its versions. The tests of `Whole::item_fault` again, of rows: rows that
    // are refused have no bytes yet.
    fn check_item(&self, item: u32) -> Result<(), LayoutFault>
        requires { item < length (R.items self.now.rows.now) }
        ensures { result ≡ laid_answer (plain_fault (length (R.items self.now.rows.now)) item (level_of (R.items self.now.rows.now) item) (row_of (R.items self.now.rows.now) item)) }
    {
        if self.rows.level(item) > 15 {
            return Err(LayoutFault {
                offset: offsets::level(item),
            });
        }
        let used = self.rows.versions(item);
        if !(1..=8).contains(&used) {
            return Err(LayoutFault {
                offset: offsets::used(item),
            });
        }
        let places = self.rows.places(item);
        if !any_committed(&places[..used]) {
            return Err(LayoutFault {
                offset: offsets::used(item),
            });
        }
        check_versions(&places[..used], offsets::row_start(self.count(), item))
    }

    fn check_items(&self) -> Result<(), LayoutFault>
        ensures { result ≡ laid_answer (plain_faults (length (R.items self.now.rows.now)) 0 (R.items self.now.rows.now)) }
    {
        (0..self.count()).try_for_each(|item| self.check_item(item))
    }
}

// Rows that are to fill so many bytes.
pub(super) fn check<R: Rows>(rows: &R, length: usize) -> Result<(), LayoutFault>
    ensures { result ≡ laid_answer (rows_fault (R.items rows.now) length) }
{
    check_head(rows.count(), length)?;
    Fitting { rows }.check_items()
}
