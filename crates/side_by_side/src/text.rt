// Calls and answers as text. The types of `rules` have no text of their own, and an impl for them could stand only there.
use rules::{Answer, Call, Refusal, Reply};
use std::fmt;

#[derive(Drop)]
pub struct Line(pub Call);

#[derive(Drop)]
pub struct Shown(pub Answer);

impl fmt::Display for Line {
    fn fmt<W: fmt::Write>(&self, f: &mut fmt::Formatter<W>) -> fmt::Result {
        match self.0 {
            Call::Tick => write!(f, "tick"),
            Call::Begin { level, degree } => write!(f, "begin at level {level}, degree {degree}"),
            Call::Read {
                level,
                number,
                item,
            } => write!(f, "{level}/{number} reads item {item}"),
            Call::Write {
                level,
                number,
                item,
                value,
            } => write!(f, "{level}/{number} writes item {item}: {value}"),
            Call::Commit { level, number } => write!(f, "{level}/{number} commits"),
            Call::Abort { level, number } => write!(f, "{level}/{number} aborts"),
        }
    }
}

impl fmt::Display for Shown {
    fn fmt<W: fmt::Write>(&self, f: &mut fmt::Formatter<W>) -> fmt::Result {
        match self.0 {
            Ok(Reply::Clock(clock)) => write!(f, "0 {clock}"),
            Ok(Reply::Begun(number, stamp)) => write!(f, "0 {number} {stamp}"),
            Ok(Reply::Value(value)) => write!(f, "0 {value}"),
            Ok(Reply::Done) => write!(f, "0"),
            Err(refusal @ (Refusal::Wait(level, number) | Refusal::PendingOther(level, number))) =>
                write!(f, "{} {level} {number}", u8::from(refusal)),
            Err(refusal) => write!(f, "{}", u8::from(refusal)),
        }
    }
}
