// Which transactions a level looks at.
ghost use Rattle.std.specs.Prelude.{◌≡◌};
ghost use Rattle.rules.specs.Watermarks.{collected};
ghost use Rattle.choosing.specs.Reaches.{reaches};

use crate::collected::Collected;
use orders::LevelOrder;
use tables::Tables;

// Which levels count: all that are dominated, or those that are strictly dominated.
// It is an enum, and no closure: a public function asks nothing of its caller.
#[derive(Clone, Copy, PartialEq, Eq, Debug)]
pub enum Reach {
    AtOrBelow,
    Below,
}

fn counts<O: LevelOrder>(order: &O, reach: Reach, level: u8, other: u8) -> bool
    ensures { result ≡ reaches (O.LevelOrder.meaning order.now) reach level other }
{
    match reach {
        Reach::AtOrBelow => order.dominates(level, other),
        Reach::Below => order.dominates(level, other) && level != other,
    }
}

pub fn collect<O: LevelOrder>(order: &O, tables: &Tables, level: u8, reach: Reach) -> Collected
    ensures { result ≡ collected (reaches (O.LevelOrder.meaning order.now) reach level) 0 tables.now }
{
    let mut found = Collected::new();
    for (other, table) in (0..16u8).zip(tables.as_slice()) {
        if counts(order, reach, level, other) {
            found.push_places(other, &table.places);
        }
    }
    found
}
