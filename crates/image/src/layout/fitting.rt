// Rows of no more items than an image may have.
ghost use Rattle.std.specs.Prelude.{◌≡◌, ◌≤◌, length};

use crate::layout::rows::Rows;

#[derive(Drop)]
pub(super) struct Fitting<'a, R: Rows> {
    pub(super) rows: &'a R,
    ghost few: { length (R.items rows.now) ≤ 4096 },
}

impl<R: Rows> Fitting<'_, R> {
    // How many items there are.
    pub(super) fn count(&self) -> u32
        ensures { result ≡ length (R.items self.now.rows.now) }
    {
        self.rows.count() as u32
    }
}
