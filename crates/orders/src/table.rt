// An order given bit by bit: bit b of row a says that a dominates b.
ghost use Rattle.std.specs.Prelude.{◌≡◌, ◌≤◌, true, length};
ghost use Rattle.orders.specs.Orders.{keeps_laws};
ghost use Rattle.orders.specs.Tables.{tabled};

mod laws;
mod order;
mod rows;

// A relation on 1 to 16 levels, lawful or not. Rows and bits from `count` on mean nothing.
// An array and a count, since an order allocates nothing.
#[derive(Clone, Copy)]
struct Relation {
    rows: [u16; 16],
    count: u8,
    ghost full: { length rows ≡ 16 },
    ghost some: { 1 ≤ count },
    ghost few: { count ≤ 16 },
}

// A relation that keeps the laws.
#[derive(Clone, Copy)]
pub struct Table {
    relation: Relation,
    ghost lawful: { keeps_laws (tabled relation.count relation.rows) ≡ true },
}
