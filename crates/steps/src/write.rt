// What a write decides of a row.
ghost use Rattle.std.specs.Prelude.{◌≡◌};
ghost use Rattle.shelves.specs.Items.{row_of};
ghost use Rattle.rules.specs.Choices.{last_that, numbered, before, with_value, pending};
ghost use Rattle.rules.specs.Steps.{two_committed, write_behind, write_row};
ghost use Rattle.steps.specs.Traces.{committed_there};

use choosing::{Wanted, choose};
use rules::{Refusal, Writing};
use shelves::{Edit, Shelf, State, Version};

// A value that a transaction writes, with the transaction's number and stamp.
#[derive(Clone, Copy, PartialEq, Eq, Debug)]
pub struct Written {
    pub number: u32,
    pub stamp: u32,
    pub value: u64,
}

impl Written {
    // The version that it becomes.
    fn pending(self) -> Version
        ensures { result ≡ pending self.number self.stamp self.value }
    {
        Version {
            number: self.number,
            stamp: self.stamp,
            mark: self.number,
            state: State::Pending,
            value: self.value,
        }
    }
}

fn with_value(version: Version, value: u64) -> Version
    ensures { result ≡ with_value value version }
{
    Version { value, ..version }
}

fn is_committed(found: Option<Version>) -> bool
    ensures { result ≡ committed_there found }
{
    found.is_some_and(|version| version.state == State::Committed)
}

// Whether the two oldest versions of an item are committed.
fn two_committed<S: Shelf>(shelf: &S, item: u32) -> bool
    ensures { result ≡ two_committed (row_of (S.Shelf.items shelf.now) item) }
{
    is_committed(shelf.look(item, 0)) && is_committed(shelf.look(item, 1))
}

// Behind its predecessor; in a full row the oldest version goes first, and the others move up.
#[tactic(auto, using(crate::proofs::Found::chosen_within))]
fn write_behind<S: Shelf>(shelf: &S, item: u32, written: Written) -> Result<Writing, Refusal>
    ensures { result ≡ write_behind (row_of (S.Shelf.items shelf.now) item) written.number written.stamp written.value (last_that (before written.number) (row_of (S.Shelf.items shelf.now) item)) }
{
    let predecessor = choose(shelf, item, Wanted::Before(written.number)).ok_or(Refusal::Dropped)?;
    if predecessor.version.mark > written.number {
        return Err(Refusal::ReadLater);
    }
    let version = written.pending();
    if shelf.versions(item) < 8 {
        return Ok(Writing {
            drop: false,
            edit: Edit::Insert(predecessor.place + 1, version),
        });
    }
    if !two_committed(shelf, item) {
        return Err(Refusal::RowFull);
    }
    Ok(Writing {
        drop: true,
        edit: Edit::Insert(predecessor.place, version),
    })
}

// Over its own version, if there is one.
pub fn write_row<S: Shelf>(shelf: &S, item: u32, written: Written) -> Result<Writing, Refusal>
    ensures { result ≡ write_row (row_of (S.Shelf.items shelf.now) item) written.number written.stamp written.value (last_that (numbered written.number) (row_of (S.Shelf.items shelf.now) item)) }
{
    match choose(shelf, item, Wanted::Numbered(written.number)) {
        Some(own) => Ok(Writing {
            drop: false,
            edit: Edit::Put(own.place, with_value(own.version, written.value)),
        }),
        None => write_behind(shelf, item, written),
    }
}
