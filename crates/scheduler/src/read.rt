// Reads.
ghost use Rattle.std.specs.Prelude.{◌≡◌};
ghost use Rattle.rules.specs.Steps.{read_below, read_item, reading, read};
ghost use Rattle.scheduler.specs.Views.{parts_of, state_of, Does};
ghost use Rattle.steps.specs.Ends.{read_ruled};
ghost use Rattle.steps.specs.Traces.{item_at};

use crate::state::Scheduler;
use choosing::{Wanted, choose};
use orders::LevelOrder;
use placements::Placement;
use rules::{Reading, Refusal, TransactionId};
use shelves::Shelf;
use steps::{apply_reading, lower_read, own_read, wait};
use tables::Held;

impl<O: LevelOrder, P: Placement, S: Shelf> Scheduler<O, P, S> {
    fn read_below(&self, stamp: u32, item: u32) -> Result<Reading, Refusal>
        ensures { result ≡ read_below (parts_of O.LevelOrder.meaning P.Placement.meaning self.now) (state_of S.Shelf.items self.now) stamp (item_at (S.Shelf.items self.now.shelf) item) }
    {
        let level = self.shelf.level(item);
        if self.floor(level) < stamp {
            return Err(wait(self.waited_for(level)));
        }
        lower_read(choose(&self.shelf, item, Wanted::OlderThan(stamp)))
    }

    fn read_item(&self, reader: TransactionId, held: Held, item: u32) -> Result<Reading, Refusal>
        ensures { result ≡ read_item (parts_of O.LevelOrder.meaning P.Placement.meaning self.now) (state_of S.Shelf.items self.now) reader.level reader.number held (item_at (S.Shelf.items self.now.shelf) item) }
    {
        let other = self.shelf.level(item);
        if !self.order.dominates(reader.level, other) {
            return Err(Refusal::NotDominated);
        }
        if other == reader.level {
            let chosen = choose(&self.shelf, item, Wanted::UpTo(reader.number));
            return own_read(reader, chosen);
        }
        self.read_below(held.stamp, item)
    }

    #[tactic(auto, using(crate::proofs::Found::asked_first))]
    fn reading(&self, reader: TransactionId, item: u32) -> Result<Reading, Refusal>
        ensures { result ≡ reading (parts_of O.LevelOrder.meaning P.Placement.meaning self.now) (state_of S.Shelf.items self.now) reader.level reader.number item }
    {
        let held = self.asked(reader, item)?;
        self.read_item(reader, held, item)
    }

    // Answers the value of the version that the transaction may see.
    pub fn read(&mut self, reader: TransactionId, item: u32) -> Result<u64, Refusal>
        ensures { Does O.LevelOrder.meaning P.Placement.meaning S.Shelf.items S.Shelf.edits (λ p s. read p s reader.level reader.number item) (read_ruled reader.level reader.number item) self.old self.new result }
    {
        let reading = self.reading(reader, item)?;
        apply_reading(&mut self.shelf, item, reading);
        Ok(reading.value)
    }
}
