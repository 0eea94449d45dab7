// Where the fields of an image stand.
ghost use Rattle.std.specs.Prelude.{◌≡◌, ◌+◌, ◌*◌};
ghost use Rattle.image.specs.Layout.{whole};

// The length of all bytes of so many items.
pub(crate) fn whole(count: u32) -> usize
    ensures { result ≡ whole count }
{
    8 + 194 * count as usize
}

// The level of an item.
pub(crate) fn level(item: u32) -> usize
    ensures { result ≡ 8 + 2 * item }
{
    8 + 2 * item as usize
}

// The number of versions of an item.
pub(crate) fn used(item: u32) -> usize
    ensures { result ≡ 9 + 2 * item }
{
    9 + 2 * item as usize
}

// The first place of an item, one of so many items.
pub(crate) fn row_start(count: u32, item: u32) -> usize
    ensures { result ≡ 8 + 2 * count + 192 * item }
{
    8 + 2 * count as usize + 192 * item as usize
}
