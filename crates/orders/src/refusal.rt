// Why an order could not be made.
ghost use Rattle.std.specs.Prelude.{◌≡◌};
ghost use Rattle.orders.specs.Refusals.{number, count_refusal, unless};

use thiserror::Error;

#[derive(Clone, Copy, PartialEq, Eq, Debug, Error)]
pub enum OrderRefusal {
    #[error("an order has 1 to 16 levels")]
    LevelCount,
    // Two levels would dominate each other, or another law of orders fails.
    #[error("a law of orders is broken")]
    LawBroken,
}

// The number under which a refusal is known outside.
impl From<OrderRefusal> for u8 {
    ghost from_gives = { λ refusal n. n ≡ number refusal };

    fn from(refusal: OrderRefusal) -> u8 {
        match refusal {
            OrderRefusal::LevelCount => 1,
            OrderRefusal::LawBroken => 2,
        }
    }
}

// An order has 1 to 16 levels.
pub(crate) fn check_count(levels: u8) -> Result<(), OrderRefusal>
    ensures { result ≡ unless (count_refusal levels) tt }
{
    if !(1..=16).contains(&levels) {
        return Err(OrderRefusal::LevelCount);
    }
    Ok(())
}
