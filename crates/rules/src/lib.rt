// What the scheduler must answer, as definitions, and what follows from them for every run.
#![tactic(auto)]

mod answer;
mod call;
mod decision;
mod laws;
mod refusal;

pub use answer::{Answer, Reply, answer_number};
pub use call::{Call, TransactionId};
pub use decision::{Admission, Chosen, Reading, Writing};
pub use laws::{
    choices_have_largest_number, committed_transactions_are_serial,
    hidden_calls_change_no_visible_answer, reached_rows, reached_stamps, refused_call_leaves_state,
    watermarks_are_least, worked_cases_hold,
};
pub use refusal::Refusal;
