// Tests of the level orders, and generic code in a crate of its own that relies on their laws.
#![tactic(auto)]

ghost use Rattle.std.specs.Prelude.{◌≡◌, true};
ghost use Rattle.orders.specs.Cases.{walls_keep_apart};

#[cfg(test)]
mod chains;
pub mod laws;
#[cfg(test)]
mod rows;
#[cfg(test)]
mod tables;
#[cfg(test)]
mod walled;

// The worked case of four labels behind two walls holds.
pub fn walls_keep_apart()
    ensures { walls_keep_apart ≡ true }
{}
