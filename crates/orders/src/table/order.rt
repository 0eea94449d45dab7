// A table as a level order.
ghost use Rattle.std.specs.Prelude.{◌≡◌, Err};
ghost use Rattle.orders.specs.declared.refusal.OrderRefusal.TheVariants.{LawBroken};
ghost use Rattle.orders.specs.Orders.{PartialOrder};
ghost use Rattle.orders.specs.Refusals.{unless, meant};
ghost use Rattle.orders.specs.Tabled.{table_order};
ghost use Rattle.orders.specs.Tables.{tabled, table_refusal};
ghost use Rattle.orders.specs.TabledLemmas.{passed_lawful};

use crate::order::LevelOrder;
use crate::refusal::OrderRefusal;
use crate::table::{Relation, Table};

impl Table {
    // The order that the first `levels` bits of the first `levels` rows give, or a refusal: of the number of levels
    // first, then of a relation that breaks a law.
    pub fn new(levels: u8, rows: [u16; 16]) -> Result<Table, OrderRefusal>
        ensures made { meant table_order result ≡ unless (table_refusal levels rows) (tabled levels rows) }
        ensures broken { result ≡ Err LawBroken → PartialOrder (tabled levels rows) → ⊥ }
    {
        let relation = Relation::new(levels, rows)?;
        if !relation.keeps_laws() {
            return Err(OrderRefusal::LawBroken);
        }
        Ok(Table { relation })
    }
}

impl LevelOrder for Table {
    ghost meaning = { table_order };

    ghost lawful = { λ o.
        let r = o.relation in
        passed_lawful r.count r.rows r.some r.few o.lawful };

    fn levels(&self) -> u8 {
        self.relation.levels()
    }

    fn dominates(&self, a: u8, b: u8) -> bool {
        self.relation.dominates(a, b)
    }
}
