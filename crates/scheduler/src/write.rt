// Writes.
ghost use Rattle.std.specs.Prelude.{◌≡◌};
ghost use Rattle.rules.specs.Steps.{write_item, writing, write};
ghost use Rattle.scheduler.specs.Views.{parts_of, state_of, Does};
ghost use Rattle.steps.specs.Ends.{write_ruled};
ghost use Rattle.steps.specs.Traces.{item_at};

use crate::state::Scheduler;
use orders::LevelOrder;
use placements::Placement;
use rules::{Refusal, TransactionId, Writing};
use shelves::Shelf;
use steps::{Written, apply_writing, write_row};
use tables::Held;

impl<O: LevelOrder, P: Placement, S: Shelf> Scheduler<O, P, S> {
    fn write_item(
        &self,
        writer: TransactionId,
        value: u64,
        held: Held,
        item: u32,
    ) -> Result<Writing, Refusal>
        ensures { result ≡ write_item writer.level writer.number value held (item_at (S.Shelf.items self.now.shelf) item) }
    {
        if self.shelf.level(item) != writer.level {
            return Err(Refusal::OtherLevel);
        }
        let written = Written {
            number: writer.number,
            stamp: held.stamp,
            value,
        };
        write_row(&self.shelf, item, written)
    }

    #[tactic(auto, using(crate::proofs::Found::asked_first))]
    fn writing(&self, writer: TransactionId, item: u32, value: u64) -> Result<Writing, Refusal>
        ensures { result ≡ writing (parts_of O.LevelOrder.meaning P.Placement.meaning self.now) (state_of S.Shelf.items self.now) writer.level writer.number item value }
    {
        let held = self.asked(writer, item)?;
        self.write_item(writer, value, held, item)
    }

    // The transaction writes an item of its level.
    pub fn write(&mut self, writer: TransactionId, item: u32, value: u64) -> Result<(), Refusal>
        ensures { Does O.LevelOrder.meaning P.Placement.meaning S.Shelf.items S.Shelf.edits (λ p s. write p s writer.level writer.number item value) (write_ruled writer.level writer.number item value) self.old self.new result }
    {
        let writing = self.writing(writer, item, value)?;
        apply_writing(&mut self.shelf, item, writing);
        Ok(())
    }
}
