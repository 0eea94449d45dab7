// What a level of walls carries: a rank, and a set of up to 16 walls, one bit each.
ghost use Rattle.std.specs.Prelude.{◌≡◌, Decides};
ghost use Rattle.std.specs.List.{ContainsAt as Has};
ghost use Rattle.orders.specs.Labels.{includes, covers, Covers, holds};

#[derive(Clone, Copy, PartialEq, Eq, Debug)]
pub struct Label {
    pub rank: u8,
    pub walls: u16,
}

impl Label {
    // Whether a level with this label may read one with the other.
    pub fn covers(self, other: Label) -> bool
        ensures value { result ≡ covers self other }
        ensures wall_by_wall { Decides result (Covers self other) }
    {
        self.rank >= other.rank && includes(self.walls, other.walls)
    }

    // Whether one of `labels` equals this one.
    pub(crate) fn stands_in(self, labels: &[Label]) -> bool
        ensures value { result ≡ holds labels.now self }
        ensures exact { Decides result (Has labels.now self) }
    {
        labels.contains(&self)
    }
}

// Whether the set `walls` has every wall of `others`.
fn includes(walls: u16, others: u16) -> bool
    ensures { result ≡ includes walls others }
{
    walls & others == others
}
