// The least stamp and the earliest transaction of a list.
ghost use Rattle.std.specs.Prelude.{◌≡◌, None};
ghost use Rattle.rules.specs.Watermarks.{least, stands_before, better, earliest};

use tables::Active;

// The least of the clock and the stamps. A plain loop, as the rule is told: it goes through what was collected.
pub fn least(clock: u32, list: &[Active]) -> u32
    ensures { result ≡ least clock list.now }
{
    let mut low = clock;
    for active in list {
        low = low.min(active.stamp);
    }
    low
}

// By stamp, then level, then number.
fn stands_before(x: Active, y: Active) -> bool
    ensures { result ≡ stands_before x y }
{
    x < y
}

fn better(best: Option<Active>, x: Active) -> Active
    ensures { result ≡ better best x }
{
    best.filter(|y| !stands_before(x, *y)).unwrap_or(x)
}

// The one before which none of the list stands. A plain loop as well.
pub fn earliest(list: &[Active]) -> Option<Active>
    ensures { result ≡ earliest None list.now }
{
    let mut best = None;
    for active in list {
        best = Some(better(best, *active));
    }
    best
}
