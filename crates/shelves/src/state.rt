// The number under which a state is known outside.
ghost use Rattle.std.specs.Prelude.{◌≡◌};
ghost use Rattle.shelves.specs.States.{state_number, state_numbered};

use crate::version::State;
use thiserror::Error;

// A number that stands for no state.
#[derive(Clone, Copy, PartialEq, Eq, Debug, Error)]
#[error("no state has number {number}")]
pub struct UnknownState {
    pub number: u32,
}

impl From<State> for u32 {
    ghost from_gives = { λ state number. number ≡ state_number state };

    fn from(state: State) -> u32 {
        match state {
            State::Committed => 0,
            State::Pending => 1,
        }
    }
}

impl TryFrom<u32> for State {
    type Error = UnknownState;

    ghost try_from_gives = { λ number answer. answer ≡ state_numbered number };

    fn try_from(number: u32) -> Result<State, UnknownState> {
        match number {
            0 => Ok(State::Committed),
            1 => Ok(State::Pending),
            _ => Err(UnknownState { number }),
        }
    }
}
