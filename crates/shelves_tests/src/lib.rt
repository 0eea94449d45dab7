// Tests of the row rule, of rows and of the drawer, and generic code in a crate of its own that relies on what every shelf
// promises.
#![tactic(auto)]

ghost use Rattle.std.specs.Prelude.{◌≡◌, ◌≤◌, length};

use shelves::Shelf;

#[cfg(test)]
mod drawers;
#[cfg(test)]
mod rows;
#[cfg(test)]
mod rules;
#[cfg(test)]
mod states;

// No shelf has more than 4,096 items.
pub fn few_items<S: Shelf>(shelf: &S) -> u32
    ensures value { result ≡ length (S.Shelf.items shelf.now) }
    ensures few { result ≤ 4096 }
{
    shelf.count()
}
