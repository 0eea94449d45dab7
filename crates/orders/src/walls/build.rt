// Takes labels one by one and makes the order of those it took.
ghost use Rattle.std.specs.Prelude.{◌≡◌, true, [], ◌∷◌, ◌++◌, length, is_err, None};
ghost use Rattle.orders.specs.Labels.{label_refusal, with_label, walled};
ghost use Rattle.orders.specs.Refusals.{count_refusal, unless, meant};
ghost use Rattle.orders.specs.Walled.{labels_of, walls_order};

use crate::label::Label;
use crate::refusal::{OrderRefusal, check_count};
use crate::walls::{Walls, WallsBuilder};

impl WallsBuilder {
    pub fn new() -> WallsBuilder
        ensures { labels_of result ≡ [] }
    {
        WallsBuilder {
            labels: [Label { rank: 0, walls: 0 }; 16],
            count: 0,
        }
    }

    // Takes one label more, or refuses it: a seventeenth, and then one that it has already. After a refusal the
    // builder is as it was.
    pub fn add(&mut self, label: Label) -> Result<(), OrderRefusal>
        ensures answer { result ≡ unless (label_refusal (labels_of self.old) label) tt }
        ensures after { labels_of self.new ≡ with_label (labels_of self.old) label }
        ensures refused { is_err result ≡ true → self.new ≡ self.old }
    {
        self.check_label(label)?;
        self.push(label);
        Ok(())
    }

    // Whether a label more can be taken.
    fn check_label(&self, label: Label) -> Result<(), OrderRefusal>
        ensures { result ≡ unless (label_refusal (labels_of self.now) label) tt }
    {
        if self.count >= 16 {
            return Err(OrderRefusal::LevelCount);
        }
        if label.stands_in(self.labels()) {
            return Err(OrderRefusal::LawBroken);
        }
        Ok(())
    }

    // Stores a label that is not refused.
    fn push(&mut self, label: Label)
        requires { label_refusal (labels_of self.old) label ≡ None }
        ensures { labels_of self.new ≡ labels_of self.old ++ label ∷ [] }
    {
        self.labels[self.count as usize] = label;
        // One more in fixed memory: the only line that counts.
        self.count += 1;
    }

    // The order of the labels taken so far. The builder can go on.
    pub fn finish(&self) -> Result<Walls, OrderRefusal>
        ensures { meant walls_order result ≡ unless (count_refusal (length (labels_of self.now))) (walled (labels_of self.now)) }
    {
        check_count(self.count)?;
        Ok(Walls { built: *self })
    }
}
