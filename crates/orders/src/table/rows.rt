// A relation, made and asked.
ghost use Rattle.std.specs.Prelude.{◌≡◌};
ghost use Rattle.orders.specs.Refusals.{count_refusal, unless, meant};
ghost use Rattle.orders.specs.Tabled.{relation_order};
ghost use Rattle.orders.specs.Tables.{tabled};

use crate::refusal::{OrderRefusal, check_count};
use crate::table::Relation;

impl Relation {
    pub(super) fn new(levels: u8, rows: [u16; 16]) -> Result<Relation, OrderRefusal>
        ensures { meant relation_order result ≡ unless (count_refusal levels) (tabled levels rows) }
    {
        check_count(levels)?;
        Ok(Relation {
            rows,
            count: levels,
        })
    }

    pub(super) fn levels(&self) -> u8
        ensures { result ≡ (relation_order self.now).levels }
    {
        self.count
    }

    pub(super) fn dominates(&self, a: u8, b: u8) -> bool
        ensures { result ≡ (relation_order self.now).dominates a b }
    {
        a < self.count && b < self.count && (self.rows[a as usize] >> b) % 2 == 1
    }
}
