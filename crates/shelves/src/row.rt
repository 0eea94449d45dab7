// A row of up to eight versions that keeps the row rule.
ghost use Rattle.std.specs.Prelude.{◌≡◌, ◌≤◌, true, length, take};
ghost use Rattle.shelves.specs.Rows.{keeps_rule};

use crate::version::Version;

mod edits;
mod reads;

// Eight places, of which the row uses the first `count`.
// They are a plain array: shelves allocate nothing, and a refused edit leaves the unused places equal too.
#[derive(Clone, Copy)]
pub struct Row {
    count: usize,
    places: [Version; 8],
    ghost full: { length places ≡ 8 },
    ghost few: { count ≤ 8 },
    ghost ruled: { keeps_rule (take count places) ≡ true },
}
