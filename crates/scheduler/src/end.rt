// Commits and aborts.
ghost use Rattle.rules.specs.Steps.{commit, abort};
ghost use Rattle.steps.specs.Ends.{end_call, end_ruled, commit_ruled, abort_ruled};
ghost use Rattle.scheduler.specs.Views.{Does};

use crate::state::Scheduler;
use orders::LevelOrder;
use placements::Placement;
use rules::{Refusal, TransactionId};
use shelves::Shelf;
use steps::{End, end_items};

impl<O: LevelOrder, P: Placement, S: Shelf> Scheduler<O, P, S> {
    fn end(&mut self, end: End, transaction: TransactionId) -> Result<(), Refusal>
        ensures { Does O.LevelOrder.meaning P.Placement.meaning S.Shelf.items S.Shelf.edits (end_call end transaction.level transaction.number) (end_ruled end transaction.level transaction.number) self.old self.new result }
    {
        let held = self.sender(transaction)?;
        end_items(&mut self.shelf, end, transaction);
        self.tables.clear(transaction.level, held.place);
        Ok(())
    }

    // Ends a transaction; its versions stay and are committed.
    pub fn commit(&mut self, transaction: TransactionId) -> Result<(), Refusal>
        ensures { Does O.LevelOrder.meaning P.Placement.meaning S.Shelf.items S.Shelf.edits (λ p s. commit p s transaction.level transaction.number) (commit_ruled transaction.level transaction.number) self.old self.new result }
    {
        self.end(End::Commit, transaction)
    }

    // Ends a transaction; its versions go.
    pub fn abort(&mut self, transaction: TransactionId) -> Result<(), Refusal>
        ensures { Does O.LevelOrder.meaning P.Placement.meaning S.Shelf.items S.Shelf.edits (λ p s. abort p s transaction.level transaction.number) (abort_ruled transaction.level transaction.number) self.old self.new result }
    {
        self.end(End::Abort, transaction)
    }
}
