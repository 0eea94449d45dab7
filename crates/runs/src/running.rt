// Many calls, one after the other.
ghost use Rattle.std.specs.Prelude.{◌≡◌, ◌≤◌, ◌&&◌, length, take, nat_le, is_ok, OnOk, OnErr};
ghost use Rattle.scheduler.specs.Views.{parts_of, state_of};
ghost use Rattle.runs.specs.Running.{Ran, Runs, SeeTheSame};

use crate::sending::send;
use orders::LevelOrder;
use placements::Placement;
use rules::{Answer, Call};
use scheduler::Scheduler;
use shelves::Shelf;
use thiserror::Error;

#[tactic(auto, using(std::proofs::lemmas::List::take_all))]
fn run_all<O: LevelOrder, P: Placement, S: Shelf>(
    scheduler: &mut Scheduler<O, P, S>,
    calls: &[Call],
    answers: &mut [Answer],
)
    requires { length calls.now ≤ length answers.old }
    ensures { Ran O.LevelOrder.meaning P.Placement.meaning S.Shelf.items calls.now scheduler.old scheduler.new answers.old answers.new }
{
    // The answers by index: what a zip with `iter_mut` writes is not known after it.
    for (i, call) in calls.iter().enumerate() {
        answers[i] = send(scheduler, *call);
    }
}

// The list of answers is shorter than the list of calls.
#[derive(Clone, Copy, PartialEq, Eq, Debug, Error)]
#[error("there are more calls than places for their answers")]
pub struct NoRoom;

// Sends the calls and stores their answers at the front of the list. If the list is too short for them, sends nothing.
pub fn run<O: LevelOrder, P: Placement, S: Shelf>(
    scheduler: &mut Scheduler<O, P, S>,
    calls: &[Call],
    answers: &mut [Answer],
) -> Result<(), NoRoom>
    ensures { Runs O.LevelOrder.meaning P.Placement.meaning S.Shelf.items calls.now scheduler.old scheduler.new answers.old answers.new (is_ok result) }
{
    if answers.len() < calls.len() {
        return Err(NoRoom);
    }
    run_all(scheduler, calls, answers);
    Ok(())
}

// The same of two schedulers, of possibly different kinds of parts: both run, or neither does. Whatever each level sees of the two runs
// can so be compared.
// Six parameters: a clause names what is behind a `&mut` by its parameter (`answers.new`), and in a struct of three by position alone
// (`left.exit.1.1.0.now`).
pub fn run_both<O: LevelOrder, P: Placement, S: Shelf, U: LevelOrder, V: Placement, W: Shelf>(
    left: &mut Scheduler<O, P, S>,
    calls: &[Call],
    answers: &mut [Answer],
    right: &mut Scheduler<U, V, W>,
    others: &[Call],
    replies: &mut [Answer],
) -> Result<(), NoRoom>
    ensures room { is_ok result ≡ (nat_le (length calls.now) (length answers.old) && nat_le (length others.now) (length replies.old)) }
    ensures short { OnErr result ((left.new ≡ left.old) × (answers.new ≡ answers.old) × (right.new ≡ right.old) × (replies.new ≡ replies.old)) }
    ensures left { OnOk result (Ran O.LevelOrder.meaning P.Placement.meaning S.Shelf.items calls.now left.old left.new answers.old answers.new) }
    ensures right { OnOk result (Ran U.LevelOrder.meaning V.Placement.meaning W.Shelf.items others.now right.old right.new replies.old replies.new) }
    ensures same { OnOk result (SeeTheSame (parts_of O.LevelOrder.meaning P.Placement.meaning left.old) (state_of S.Shelf.items left.old) (state_of S.Shelf.items left.new) calls.now (take (length calls.now) answers.new) (parts_of U.LevelOrder.meaning V.Placement.meaning right.old) (state_of W.Shelf.items right.old) (state_of W.Shelf.items right.new) others.now (take (length others.now) replies.new)) }
{
    if answers.len() < calls.len() || replies.len() < others.len() {
        return Err(NoRoom);
    }
    run_all(left, calls, answers);
    run_all(right, others, replies);
    Ok(())
}
