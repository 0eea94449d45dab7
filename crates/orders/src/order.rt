// A level order tells the number of levels and says which level dominates which.
ghost use Rattle.std.specs.Prelude.{◌≡◌};
ghost use Rattle.orders.specs.Orders.{Order, PartialOrder};

pub trait LevelOrder {
    // The number of levels and the relation that this value stands for.
    ghost meaning: { Self → Order };

    fn levels(&self) -> u8
        ensures { result ≡ (meaning self.now).levels };

    // Whether level `a` may read what stands at level `b`. A number that is no level dominates nothing and is
    // dominated by nothing.
    fn dominates(&self, a: u8, b: u8) -> bool
        ensures { result ≡ (meaning self.now).dominates a b };

    // Every value of every kind is a partial order of 1 to 16 levels.
    ghost lawful: { (o : Self) → PartialOrder (meaning o) };
}
