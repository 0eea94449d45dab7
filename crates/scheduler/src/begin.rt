// Ticks and begins.
ghost use Rattle.std.specs.Prelude.{◌≡◌, []};
ghost use Rattle.rules.specs.Steps.{next_clock, tick, admission, begin};
ghost use Rattle.scheduler.specs.Views.{parts_of, state_of, Does};

use crate::state::Scheduler;
use orders::LevelOrder;
use placements::Placement;
use rules::{Admission, Refusal};
use shelves::Shelf;

impl<O: LevelOrder, P: Placement, S: Shelf> Scheduler<O, P, S> {
    fn next_clock(&self) -> Result<u32, Refusal>
        ensures { result ≡ next_clock (state_of S.Shelf.items self.now) }
    {
        if !self.sound {
            return Err(Refusal::Unfit);
        }
        self.clock.checked_add(1).ok_or(Refusal::ClockAtEnd)
    }

    // Advances the clock and answers it.
    pub fn tick(&mut self) -> Result<u32, Refusal>
        ensures { Does O.LevelOrder.meaning P.Placement.meaning S.Shelf.items S.Shelf.edits (λ _ s. tick s) (λ _ _. []) self.old self.new result }
    {
        let next = self.next_clock()?;
        self.clock = next;
        Ok(next)
    }

    fn admission(&self, level: u8, degree: u8) -> Result<Admission, Refusal>
        ensures { result ≡ admission (parts_of O.LevelOrder.meaning P.Placement.meaning self.now) (state_of S.Shelf.items self.now) level degree }
    {
        let table = self.table(level)?;
        if degree > 100 {
            return Err(Refusal::DegreeTooHigh);
        }
        let number = table.number.checked_add(1).ok_or(Refusal::NumbersAtEnd)?;
        let place = table.first_free().ok_or(Refusal::TableFull)?;
        Ok(Admission {
            place,
            number,
            stamp: self.stamp_for(level, degree),
        })
    }

    // Starts a transaction and answers its number and stamp.
    pub fn begin(&mut self, level: u8, degree: u8) -> Result<(u32, u32), Refusal>
        ensures { Does O.LevelOrder.meaning P.Placement.meaning S.Shelf.items S.Shelf.edits (λ p s. begin p s level degree) (λ _ _. []) self.old self.new result }
    {
        let admitted = self.admission(level, degree)?;
        self.tables
            .fill(level, admitted.place, admitted.number, admitted.stamp);
        Ok((admitted.number, admitted.stamp))
    }
}
