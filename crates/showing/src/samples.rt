// The drawer that is shown.
ghost use Rattle.std.specs.Prelude.{◌≡◌};
ghost use Rattle.std.specs.Result.{IsOkAnd};
ghost use Rattle.shelves.specs.Drawers.{drawer_items};
ghost use Rattle.showing.specs.Samples.{two_items};

use shelves::{Drawer, ShelfRefusal};

// A drawer of two items; there is room for them.
pub fn two_items() -> Result<Drawer, ShelfRefusal>
    ensures { IsOkAnd result (λ d. drawer_items d ≡ two_items) }
{
    let mut drawer = Drawer::new();
    drawer.add(0, 100)?;
    drawer.add(3, 300)?;
    Ok(drawer)
}
