// Why a shelf could not be made or filled.
ghost use Rattle.std.specs.Prelude.{◌≡◌};
ghost use Rattle.shelves.specs.Refusals.{number};

use thiserror::Error;

#[derive(Clone, Copy, PartialEq, Eq, Debug, Error)]
pub enum ShelfRefusal {
    #[error("a drawer has 64 items already")]
    DrawerFull,
}

// The number under which a refusal is known outside.
impl From<ShelfRefusal> for u8 {
    ghost from_gives = { λ refusal code. code ≡ number refusal };

    fn from(refusal: ShelfRefusal) -> u8 {
        match refusal {
            ShelfRefusal::DrawerFull => 3,
        }
    }
}
