// The answers of a scheduler.
ghost use Rattle.std.specs.Prelude.{◌≡◌};
ghost use Rattle.rules.specs.Answers.{answer_number};

use crate::refusal::Refusal;

// What an accepted call answers.
#[derive(Clone, Copy, PartialEq, Eq, Debug)]
pub enum Reply {
    // The clock after a tick.
    Clock(u32),
    // Number and stamp of the transaction that began, one by one, as every law on a begin names them.
    Begun(u32, u32),
    // The value that was read.
    Value(u64),
    // A write or an end was accepted.
    Done,
}

// What any call answers: its reply, or why it is refused.
pub type Answer = Result<Reply, Refusal>;

// 0 for an accepted call, otherwise the number of the refusal. A function: `Answer` is the library's `Result`, so no `From` of it can stand here.
pub fn answer_number(answer: Answer) -> u8
    ensures { result ≡ answer_number answer }
{
    match answer {
        Ok(_) => 0,
        Err(refusal) => u8::from(refusal),
    }
}
