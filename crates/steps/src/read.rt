// What a read decides of the version that it chose.
ghost use Rattle.std.specs.Prelude.{◌≡◌};
ghost use Rattle.rules.specs.Choices.{is_pending, marked};
ghost use Rattle.rules.specs.Steps.{own_read, lower_read, wait};

use rules::{Chosen, Reading, Refusal, TransactionId};
use shelves::{Edit, State, Version};
use tables::Active;

fn marked(version: Version, number: u32) -> Version
    ensures { result ≡ marked number version }
{
    Version {
        mark: version.mark.max(number),
        ..version
    }
}

fn is_pending(version: Version) -> bool
    ensures { result ≡ is_pending version }
{
    version.state == State::Pending
}

// Of a version of its own level: another's pending one is not read, any other is marked.
pub fn own_read(reader: TransactionId, chosen: Option<Chosen>) -> Result<Reading, Refusal>
    ensures { result ≡ own_read reader.level reader.number chosen }
{
    let Chosen { place, version } = chosen.ok_or(Refusal::Dropped)?;
    if is_pending(version) && version.number != reader.number {
        return Err(Refusal::PendingOther(reader.level, version.number));
    }
    Ok(Reading {
        value: version.value,
        edit: Some(Edit::Put(place, marked(version, reader.number))),
    })
}

// Of a version of a lower level, which is left as it is.
pub fn lower_read(chosen: Option<Chosen>) -> Result<Reading, Refusal>
    ensures { result ≡ lower_read chosen }
{
    let chosen = chosen.ok_or(Refusal::Dropped)?;
    if is_pending(chosen.version) {
        return Err(Refusal::LowerPending);
    }
    Ok(Reading {
        value: chosen.version.value,
        edit: None,
    })
}

pub fn wait(active: Option<Active>) -> Refusal
    ensures { result ≡ wait active }
{
    active.map_or(Refusal::Wait(0, 0), |active| {
        Refusal::Wait(active.level, active.number)
    })
}
