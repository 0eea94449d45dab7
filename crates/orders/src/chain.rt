// Levels in a line: each dominates itself and those with smaller numbers.
ghost use Rattle.std.specs.Prelude.{◌≡◌, ◌≤◌};
ghost use Rattle.orders.specs.Chains.{chain};
ghost use Rattle.orders.specs.Refusals.{count_refusal, unless, meant};
ghost use Rattle.std.proofs.Common.{rules, arith};

use crate::order::LevelOrder;
use crate::refusal::{OrderRefusal, check_count};

#[derive(Clone, Copy)]
pub struct Chain {
    count: u8,
    ghost ok: { (1 ≤ count) × (count ≤ 16) },
}

impl Chain {
    pub fn new(levels: u8) -> Result<Chain, OrderRefusal>
        ensures { meant (λ c. chain c.count) result ≡ unless (count_refusal levels) (chain levels) }
    {
        check_count(levels)?;
        Ok(Chain { count: levels })
    }
}

impl LevelOrder for Chain {
    ghost meaning = { λ c. chain c.count };

    ghost lawful = { first_of (Prim.search rules, Prim.grind (arith, Self.row.coded.inj)) };

    fn levels(&self) -> u8 {
        self.count
    }

    fn dominates(&self, a: u8, b: u8) -> bool {
        a < self.count && a >= b
    }
}
