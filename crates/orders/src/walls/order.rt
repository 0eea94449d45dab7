// Walls as a level order.
ghost use Rattle.std.specs.Prelude.{◌≡◌, length};
ghost use Rattle.std.specs.List.{slice_get};
ghost use Rattle.orders.specs.Walled.{labels_of, walls_order};
ghost use Rattle.std.proofs.Common.{arith};
ghost use Rattle.std.proofs.lemmas.List.{length-take-le};
ghost use Rattle.orders.specs.Labelled.{walled_lawful};

use crate::label::Label;
use crate::order::LevelOrder;
use crate::walls::{Walls, WallsBuilder};

impl WallsBuilder {
    // The labels taken so far.
    pub(super) fn labels(&self) -> &[Label]
        ensures { result.now ≡ labels_of self.now }
    {
        &self.labels[..self.count as usize]
    }

    // The label of a level, if there is such a level.
    fn label(&self, level: u8) -> Option<Label>
        ensures { result ≡ slice_get (labels_of self.now) level }
    {
        self.labels().get(level as usize).copied()
    }
}

impl LevelOrder for Walls {
    ghost meaning = { walls_order };

    ghost lawful = { λ o.
        let n : length (labels_of o.built) ≡ o.built.count = length-take-le o.built.count o.built.labels (omega arith) in
        walled_lawful (labels_of o.built) (omega arith) (omega arith) o.built.unequal };

    fn levels(&self) -> u8 {
        self.built.count
    }

    fn dominates(&self, a: u8, b: u8) -> bool {
        match (self.built.label(a), self.built.label(b)) {
            (Some(upper), Some(lower)) => upper.covers(lower),
            _ => false,
        }
    }
}
