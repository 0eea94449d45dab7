// What a level sees of a list of calls and of its answers.
ghost use Rattle.std.specs.Prelude.{◌≡◌, IfOk};
ghost use Rattle.rules.specs.Isolation.{visible, seen_calls};
ghost use Rattle.side_by_side.specs.Seen.{seen_answers};

use orders::LevelOrder;
use rules::{Answer, Call};
use std::alloc::{AllocError, Global};

// Ticks, and the steps of the levels that it dominates.
pub fn visible<O: LevelOrder>(order: &O, level: u8, call: Call) -> bool
    ensures { result ≡ visible (O.LevelOrder.meaning order.now) level call }
{
    match call {
        Call::Tick => true,
        Call::Begin { level: other, .. }
        | Call::Read { level: other, .. }
        | Call::Write { level: other, .. }
        | Call::Abort { level: other, .. }
        | Call::Commit { level: other, .. } => order.dominates(level, other),
    }
}

// The calls that it sees, in their order.
pub fn seen_calls<O: LevelOrder>(
    heap: Global,
    order: &O,
    level: u8,
    calls: &[Call],
) -> Result<Vec<Call>, AllocError>
    ensures { IfOk result (λ v. v.items ≡ seen_calls (O.LevelOrder.meaning order.now) level calls.now) }
{
    calls
        .iter()
        .copied()
        .filter(|call| visible(order, level, *call))
        .collect(heap)
}

// The answers to these.
pub fn seen_answers<O: LevelOrder>(
    heap: Global,
    order: &O,
    level: u8,
    calls: &[Call],
    answers: &[Answer],
) -> Result<Vec<Answer>, AllocError>
    ensures { IfOk result (λ v. v.items ≡ seen_answers (O.LevelOrder.meaning order.now) level calls.now answers.now) }
{
    calls
        .iter()
        .zip(answers)
        .filter_map(|(call, answer)| visible(order, level, *call).then_some(*answer))
        .collect(heap)
}
