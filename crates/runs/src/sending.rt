// One call of any kind.
ghost use Rattle.runs.specs.Sending.{Sends};

use orders::LevelOrder;
use placements::Placement;
use rules::{Answer, Call, Reply, TransactionId};
use scheduler::Scheduler;
use shelves::Shelf;

// Sends a call and gives its answer.
pub fn send<O: LevelOrder, P: Placement, S: Shelf>(
    scheduler: &mut Scheduler<O, P, S>,
    call: Call,
) -> Answer
    ensures { Sends O.LevelOrder.meaning P.Placement.meaning S.Shelf.items S.Shelf.edits call scheduler.old scheduler.new result }
{
    match call {
        Call::Tick => scheduler.tick().map(Reply::Clock),
        Call::Begin { level, degree } => scheduler
            .begin(level, degree)
            .map(|(number, stamp)| Reply::Begun(number, stamp)),
        Call::Read {
            level,
            number,
            item,
        } => scheduler
            .read(TransactionId { level, number }, item)
            .map(Reply::Value),
        Call::Write {
            level,
            number,
            item,
            value,
        } => scheduler
            .write(TransactionId { level, number }, item, value)
            .map(|()| Reply::Done),
        Call::Commit { level, number } => scheduler
            .commit(TransactionId { level, number })
            .map(|()| Reply::Done),
        Call::Abort { level, number } => scheduler
            .abort(TransactionId { level, number })
            .map(|()| Reply::Done),
    }
}
