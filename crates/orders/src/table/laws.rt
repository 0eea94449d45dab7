// Whether a relation keeps the laws of orders, tested at each level, each pair and each triple.
ghost use Rattle.std.specs.Prelude.{◌≡◌, Decides};
ghost use Rattle.orders.specs.Orders.{PartialOrder, transitive_at, lawful_pair, lawful_level, keeps_laws};
ghost use Rattle.orders.specs.Tabled.{relation_order};

use crate::table::Relation;

impl Relation {
    pub(super) fn keeps_laws(&self) -> bool
        ensures value { result ≡ keeps_laws (relation_order self.now) }
        ensures exact { Decides result (PartialOrder (relation_order self.now)) }
    {
        (0..self.count).all(|level| self.lawful_level(level))
    }

    // Whether a level dominates itself, and all pairs that begin with it pass.
    fn lawful_level(&self, level: u8) -> bool
        ensures { result ≡ lawful_level (relation_order self.now) level }
    {
        self.dominates(level, level) && (0..self.count).all(|other| self.lawful_pair(level, other))
    }

    // Whether only a level and itself dominate each other, and all triples that begin with the two pass.
    fn lawful_pair(&self, first: u8, second: u8) -> bool
        ensures { result ≡ lawful_pair (relation_order self.now) first second }
    {
        let mutual = self.dominates(first, second) && self.dominates(second, first);
        (!mutual || first == second)
            && (0..self.count).all(|third| self.transitive_at(first, second, third))
    }

    // Whether what `first` dominates by way of `second` is dominated by `first`.
    fn transitive_at(&self, first: u8, second: u8, third: u8) -> bool
        ensures { result ≡ transitive_at (relation_order self.now) first second third }
    {
        let by_way = self.dominates(first, second) && self.dominates(second, third);
        !by_way || self.dominates(first, third)
    }
}
