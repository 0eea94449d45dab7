// What is asked before a call is decided.
ghost use Rattle.std.specs.Prelude.{◌≡◌, Ok};
ghost use Rattle.rules.specs.States.{table_at};
ghost use Rattle.rules.specs.Steps.{and_then, at_level, sender, item_of, stamp_for};
ghost use Rattle.rules.specs.Watermarks.{collected, floor, bound, waited_for};
ghost use Rattle.choosing.specs.Reaches.{reaches};
ghost use Rattle.scheduler.specs.Views.{parts_of, state_of};

use crate::state::Scheduler;
use choosing::{Collected, Reach, collect, earliest, least};
use orders::LevelOrder;
use placements::Placement;
use rules::{Refusal, TransactionId};
use shelves::Shelf;
use tables::{Active, Held, Table};

impl<O: LevelOrder, P: Placement, S: Shelf> Scheduler<O, P, S> {
    // The active transactions at the levels that count for `level`.
    fn reached(&self, level: u8, reach: Reach) -> Collected
        ensures { result ≡ collected (reaches (O.LevelOrder.meaning self.now.order) reach level) 0 self.now.tables }
    {
        collect(&self.order, &self.tables, level, reach)
    }

    // The least of the clock and the stamps of the active transactions at levels that `level` dominates.
    pub fn floor(&self, level: u8) -> u32
        ensures { result ≡ floor (parts_of O.LevelOrder.meaning P.Placement.meaning self.now) (state_of S.Shelf.items self.now) level }
    {
        least(self.clock, self.reached(level, Reach::AtOrBelow).as_slice())
    }

    // The same over the levels that `level` strictly dominates.
    pub fn bound(&self, level: u8) -> u32
        ensures { result ≡ bound (parts_of O.LevelOrder.meaning P.Placement.meaning self.now) (state_of S.Shelf.items self.now) level }
    {
        least(self.clock, self.reached(level, Reach::Below).as_slice())
    }

    // The transaction that a reader of an item of this level waits for.
    pub(crate) fn waited_for(&self, level: u8) -> Option<Active>
        ensures { result ≡ waited_for (parts_of O.LevelOrder.meaning P.Placement.meaning self.now) (state_of S.Shelf.items self.now) level }
    {
        earliest(self.reached(level, Reach::AtOrBelow).as_slice())
    }

    // The table of a level, after the checks that come first in every step.
    pub(crate) fn table(&self, level: u8) -> Result<Table, Refusal>
        ensures { result ≡ at_level (parts_of O.LevelOrder.meaning P.Placement.meaning self.now) (state_of S.Shelf.items self.now) level (Ok (table_at (state_of S.Shelf.items self.now) level)) }
    {
        if !self.sound {
            return Err(Refusal::Unfit);
        }
        if level >= self.order.levels() {
            return Err(Refusal::UnknownLevel);
        }
        Ok(self.tables.of(level))
    }

    // Where an active transaction stands.
    pub(crate) fn sender(&self, transaction: TransactionId) -> Result<Held, Refusal>
        ensures { result ≡ sender (parts_of O.LevelOrder.meaning P.Placement.meaning self.now) (state_of S.Shelf.items self.now) transaction.level transaction.number }
    {
        let table = self.table(transaction.level)?;
        table.find(transaction.number).ok_or(Refusal::NotActive)
    }

    // Where an active transaction stands that asks for an item of the shelf.
    #[tactic(auto, using(crate::proofs::Found::item_known, crate::proofs::Found::item_unknown))]
    pub(crate) fn asked(&self, transaction: TransactionId, item: u32) -> Result<Held, Refusal>
        ensures { result ≡ and_then (sender (parts_of O.LevelOrder.meaning P.Placement.meaning self.now) (state_of S.Shelf.items self.now) transaction.level transaction.number) (λ held. and_then (item_of (state_of S.Shelf.items self.now) item) (λ _. Ok held)) }
    {
        let held = self.sender(transaction)?;
        if item >= self.shelf.count() {
            return Err(Refusal::UnknownItem);
        }
        Ok(held)
    }

    // What the placement answers for a new transaction.
    pub(crate) fn stamp_for(&self, level: u8, degree: u8) -> u32
        ensures { result ≡ stamp_for (parts_of O.LevelOrder.meaning P.Placement.meaning self.now) (state_of S.Shelf.items self.now) level degree }
    {
        let found = self.reached(level, Reach::Below);
        let bound = least(self.clock, found.as_slice());
        let low = bound.max(self.tables.of(level).stamp);
        self.placement
            .place(degree, low, self.clock, found.entries().as_slice())
    }
}
