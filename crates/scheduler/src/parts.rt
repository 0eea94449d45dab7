// Putting a scheduler together, and taking it apart.
ghost use Rattle.std.specs.Prelude.{◌≡◌};
ghost use Rattle.rules.specs.Starts.{start};
ghost use Rattle.scheduler.specs.Views.{state_of};

use crate::state::Scheduler;
use orders::LevelOrder;
use placements::Placement;
use shelves::Shelf;
use steps::check;
use tables::Tables;

impl<O: LevelOrder, P: Placement, S: Shelf> Scheduler<O, P, S> {
    // A scheduler of these parts, at its start. If they do not fit, it refuses every call.
    pub fn new(order: O, placement: P, shelf: S) -> Scheduler<O, P, S>
        ensures order { result.order ≡ order }
        ensures placement { result.placement ≡ placement }
        ensures shelf { result.shelf ≡ shelf }
        ensures start { state_of S.Shelf.items result ≡ start (O.LevelOrder.meaning order) (S.Shelf.items shelf) }
    {
        let sound = check(&order, &shelf).is_ok();
        Scheduler {
            order,
            placement,
            shelf,
            sound,
            clock: 1,
            tables: Tables::new(),
        }
    }

    // The order, for reading.
    pub fn order(&self) -> &O
        ensures { result.now ≡ self.now.order }
    {
        &self.order
    }

    // The shelf, for reading.
    pub fn shelf(&self) -> &S
        ensures { result.now ≡ self.now.shelf }
    {
        &self.shelf
    }

    // The parts again, which ends the scheduler.
    pub fn into_parts(self) -> (O, P, S)
        ensures order { result.0 ≡ self.order }
        ensures placement { result.1 ≡ self.placement }
        ensures shelf { result.2 ≡ self.shelf }
    {
        (self.order, self.placement, self.shelf)
    }
}
