// Why a call is refused.
ghost use Rattle.std.specs.Prelude.{◌≡◌};
ghost use Rattle.rules.specs.Answers.{refusal_number};

use thiserror::Error;

// `PendingOther` and `Wait` hold level and number apart: an answer is printed field by field, and every law names the two one by one.
#[derive(Clone, Copy, PartialEq, Eq, Debug, Error)]
pub enum Refusal {
    #[error("the parts do not fit")]
    Unfit,
    #[error("the clock stands at its last value")]
    ClockAtEnd,
    #[error("the level is not one of the order's")]
    UnknownLevel,
    #[error("the degree is above 100")]
    DegreeTooHigh,
    #[error("the level has no such active transaction")]
    NotActive,
    #[error("there is no such item")]
    UnknownItem,
    // Read of an item whose level is not dominated.
    #[error("the level of the item is not dominated")]
    NotDominated,
    // Write of an item of another level.
    #[error("the item is of another level")]
    OtherLevel,
    #[error("eight transactions of the level are active")]
    TableFull,
    #[error("the last begin number was given")]
    NumbersAtEnd,
    // The chosen version is pending and of another transaction, at this level and with this number.
    #[error("the version is pending, of transaction {1} of level {0}")]
    PendingOther(u8, u32),
    #[error("a later transaction of the level has read the predecessor")]
    ReadLater,
    #[error("the row is full and its two oldest versions are not both committed")]
    RowFull,
    // There is no version to choose, or no predecessor, since it was dropped.
    #[error("the version was dropped")]
    Dropped,
    // Wait for the active transaction at this level and with this number.
    #[error("wait for transaction {1} of level {0}")]
    Wait(u8, u32),
    // The lower version chosen is pending.
    #[error("the lower version is pending")]
    LowerPending,
}

impl From<Refusal> for u8 {
    ghost from_gives = { λ refusal number. number ≡ refusal_number refusal };

    // The number under which it is known outside.
    fn from(refusal: Refusal) -> u8 {
        match refusal {
            Refusal::Unfit => 4,
            Refusal::ClockAtEnd => 5,
            Refusal::UnknownLevel => 6,
            Refusal::DegreeTooHigh => 7,
            Refusal::NotActive => 8,
            Refusal::UnknownItem => 9,
            Refusal::NotDominated => 10,
            Refusal::OtherLevel => 11,
            Refusal::TableFull => 12,
            Refusal::NumbersAtEnd => 13,
            Refusal::PendingOther(_, _) => 14,
            Refusal::ReadLater => 15,
            Refusal::RowFull => 16,
            Refusal::Dropped => 17,
            Refusal::Wait(_, _) => 18,
            Refusal::LowerPending => 19,
        }
    }
}
