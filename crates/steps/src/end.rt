// The end of a transaction: a commit, which makes its versions committed, or an abort, which removes them.
ghost use Rattle.std.specs.Prelude.{◌≡◌};
ghost use Rattle.rules.specs.Choices.{committed};
ghost use Rattle.rules.specs.States.{items_through};
ghost use Rattle.rules.specs.Steps.{end_edits};
ghost use Rattle.steps.specs.Ends.{edit_for, item_edits};
ghost use Rattle.steps.specs.Traces.{Traced};

use crate::edit::apply;
use choosing::{Wanted, choose};
use rules::{Chosen, TransactionId};
use shelves::{Edit, Shelf, State, Version};

// An enum and no closure: a public function that takes a closure has to require that it may be called.
#[derive(Clone, Copy, PartialEq, Eq, Debug)]
pub enum End {
    Commit,
    Abort,
}

fn committed(version: Version) -> Version
    ensures { result ≡ committed version }
{
    Version {
        state: State::Committed,
        ..version
    }
}

fn edit_for(end: End, chosen: Chosen) -> Edit
    ensures { result ≡ edit_for end chosen }
{
    match end {
        End::Commit => Edit::Put(chosen.place, committed(chosen.version)),
        End::Abort => Edit::Remove(chosen.place),
    }
}

// One item: its version of the transaction, if it is of the level and has one.
fn end_item<S: Shelf>(shelf: &mut S, end: End, transaction: TransactionId, item: u32)
    ensures after { S.Shelf.items shelf.new ≡ items_through (S.Shelf.items shelf.old) (item_edits end transaction.level transaction.number item (S.Shelf.items shelf.old)) }
    ensures traced { Traced S.Shelf.items S.Shelf.edits shelf.old (item_edits end transaction.level transaction.number item (S.Shelf.items shelf.old)) shelf.new }
{
    if shelf.level(item) != transaction.level {
        return;
    }
    if let Some(chosen) = choose(shelf, item, Wanted::Numbered(transaction.number)) {
        apply(shelf, item, edit_for(end, chosen));
    }
}

// All items, each once.
#[tactic(auto, using(crate::proofs::Ending::one_ended, crate::proofs::Ending::all_ended))]
pub fn end_items<S: Shelf>(shelf: &mut S, end: End, transaction: TransactionId)
    ensures after { S.Shelf.items shelf.new ≡ items_through (S.Shelf.items shelf.old) (end_edits (edit_for end) transaction.level transaction.number 0 (S.Shelf.items shelf.old)) }
    ensures traced { Traced S.Shelf.items S.Shelf.edits shelf.old (end_edits (edit_for end) transaction.level transaction.number 0 (S.Shelf.items shelf.old)) shelf.new }
{
    // A shelf is edited item by item, by number: it lends none of its items.
    for item in 0..shelf.count() {
        end_item(shelf, end, transaction, item);
    }
}
