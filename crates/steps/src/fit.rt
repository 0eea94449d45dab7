// Whether an order and a shelf fit together.
ghost use Rattle.std.specs.Prelude.{◌≡◌};
ghost use Rattle.shelves.specs.Items.{row_of};
ghost use Rattle.rules.specs.Starts.{is_first, fits_order, unfit};
ghost use Rattle.steps.specs.Checks.{checked, first_there};
ghost use Rattle.steps.specs.Traces.{item_at};

use orders::LevelOrder;
use shelves::{BLANK, Shelf, Version};
use thiserror::Error;

// The first item that does not fit.
#[derive(Clone, Copy, PartialEq, Eq, Debug, Error)]
#[error("item {item} does not fit the order")]
pub struct UnfitItem {
    pub item: u32,
}

impl From<UnfitItem> for u8 {
    ghost from_gives = { λ _ number. number ≡ 4 };

    // The number of this refusal.
    fn from(_unfit: UnfitItem) -> u8 {
        4
    }
}

fn first_there(found: Option<Version>) -> bool
    ensures { result ≡ first_there found }
{
    found.is_some_and(|version| {
        version
            == Version {
                value: version.value,
                ..BLANK
            }
    })
}

// One committed version with number, stamp and mark 0.
fn is_first<S: Shelf>(shelf: &S, item: u32) -> bool
    ensures { result ≡ is_first (row_of (S.Shelf.items shelf.now) item) }
{
    shelf.versions(item) == 1 && first_there(shelf.look(item, 0))
}

fn fits<O: LevelOrder, S: Shelf>(order: &O, shelf: &S, item: u32) -> bool
    ensures { result ≡ fits_order (O.LevelOrder.meaning order.now) (item_at (S.Shelf.items shelf.now) item) }
{
    shelf.level(item) < order.levels() && is_first(shelf, item)
}

// Accepts, or names the first item whose level is none of the order's or whose row is not a first value.
pub fn check<O: LevelOrder, S: Shelf>(order: &O, shelf: &S) -> Result<(), UnfitItem>
    ensures { result ≡ checked (unfit (O.LevelOrder.meaning order.now) (S.Shelf.items shelf.now)) }
{
    (0..shelf.count())
        .find(|&item| !fits(order, shelf, item))
        .map_or(Ok(()), |item| Err(UnfitItem { item }))
}
