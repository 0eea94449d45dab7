// Levels behind walls: a level dominates another when its rank is at least as high and it is inside every wall of
// the other.
ghost use Rattle.std.specs.Prelude.{◌≡◌, ◌≤◌, true, length, take};
ghost use Rattle.orders.specs.Labels.{distinct};

use crate::label::Label;

mod build;
mod order;

// Up to 16 labels, no two of them equal, in the order of their levels.
// An array and a count, since an order allocates nothing and a refusal leaves the unused places as they were too.
#[derive(Clone, Copy)]
pub struct WallsBuilder {
    labels: [Label; 16],
    count: u8,
    ghost full: { length labels ≡ 16 },
    ghost few: { count ≤ 16 },
    ghost unequal: { distinct (take count labels) ≡ true },
}

// The order of a builder's labels, of which there is at least one.
#[derive(Clone, Copy)]
pub struct Walls {
    built: WallsBuilder,
    ghost some: { 1 ≤ built.count },
}
