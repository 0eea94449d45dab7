// What generic code knows of every order, whatever its kind.
ghost use Rattle.std.specs.Prelude.{◌≡◌, ◌+◌, ◌<◌, true, ◌&&◌};

use orders::LevelOrder;

// A level's own number is answered with true.
pub fn reads_itself<O: LevelOrder>(order: &O, level: u8) -> bool
    ensures value { result ≡ (O.LevelOrder.meaning order.now).dominates level level }
    ensures reflexive { level < (O.LevelOrder.meaning order.now).levels → result ≡ true }
{
    order.dominates(level, level)
}

// Two steps down lead where one step leads.
pub fn reads_by_way_of<O: LevelOrder>(order: &O, a: u8, b: u8, c: u8) -> bool
    ensures value { result ≡ ((O.LevelOrder.meaning order.now).dominates a b && (O.LevelOrder.meaning order.now).dominates b c) }
    ensures transitive { result ≡ true → (O.LevelOrder.meaning order.now).dominates a c ≡ true }
{
    order.dominates(a, b) && order.dominates(b, c)
}

// Only a level and itself read each other, and both are levels.
pub fn read_each_other<O: LevelOrder>(order: &O, a: u8, b: u8) -> bool
    ensures value { result ≡ ((O.LevelOrder.meaning order.now).dominates a b && (O.LevelOrder.meaning order.now).dominates b a) }
    ensures same { result ≡ true → a ≡ b }
    ensures upper { result ≡ true → a < (O.LevelOrder.meaning order.now).levels }
    ensures lower { result ≡ true → b < (O.LevelOrder.meaning order.now).levels }
{
    order.dominates(a, b) && order.dominates(b, a)
}

// The number of levels of any order, which serves as an index of 16 places when one is taken off.
pub fn last_level<O: LevelOrder>(order: &O) -> u8
    ensures value { result + 1 ≡ (O.LevelOrder.meaning order.now).levels }
    ensures index { result < 16 }
{
    order.levels() - 1
}
