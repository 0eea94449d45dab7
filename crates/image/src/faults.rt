// The first faulty field of bytes that are no image.
ghost use Rattle.std.specs.Prelude.{◌≡◌, ◌<◌, length, None};
ghost use Rattle.image.specs.Faults.{first, item_fault, fault, count_fits, length_fits};
ghost use Rattle.image.specs.Layout.{item_count, whole, IsImage};

use crate::faults::places::Places;
use crate::offsets;
use fields::read32;

mod places;

// The offset of the first faulty field, or nothing exactly if the bytes are an image.
pub fn fault(bytes: &[u8]) -> Option<usize>
    ensures value { result ≡ fault bytes.now }
    ensures sound { result ≡ None → IsImage bytes.now }
    ensures complete { IsImage bytes.now → result ≡ None }
{
    first_fault(bytes)
}

// The value alone; `fault` says of it what it means that there is none.
fn first_fault(bytes: &[u8]) -> Option<usize>
    ensures { result ≡ fault bytes.now }
{
    if !count_fits(bytes) {
        return Some(0);
    }
    if !length_fits(bytes) {
        return Some(4);
    }
    Whole { bytes }.items_fault()
}

fn count_fits(bytes: &[u8]) -> bool
    ensures { result ≡ count_fits bytes.now }
{
    bytes.len() >= 8 && (1..=4096).contains(&read32(bytes, 0))
}

fn length_fits(bytes: &[u8]) -> bool
    ensures { result ≡ length_fits bytes.now }
{
    let whole = offsets::whole(read32(bytes, 0));
    read32(bytes, 4) as usize == whole && bytes.len() == whole
}

// Bytes as long as the number of their items asks.
#[derive(Drop)]
struct Whole<'a> {
    bytes: &'a [u8],
    ghost exact: { length bytes.now ≡ whole (item_count bytes.now) },
}

impl Whole<'_> {
    // The level of an item, its number of versions, then its versions.
    fn item_fault(&self, item: u32) -> Option<usize>
        requires { item < item_count self.now.bytes.now }
        ensures { result ≡ item_fault self.now.bytes.now item }
    {
        if self.bytes[offsets::level(item)] > 15 {
            return Some(offsets::level(item));
        }
        let used = self.bytes[offsets::used(item)] as usize;
        if !(1..=8).contains(&used) {
            return Some(offsets::used(item));
        }
        let start = offsets::row_start(read32(self.bytes, 0), item);
        let places = Places {
            bytes: self.bytes,
            start,
            used,
        };
        if !places.any_committed() {
            return Some(offsets::used(item));
        }
        places.fault()
    }

    fn items_fault(&self) -> Option<usize>
        ensures { result ≡ first (item_fault self.now.bytes.now) 0 (item_count self.now.bytes.now) }
    {
        (0..read32(self.bytes, 0)).find_map(|item| self.item_fault(item))
    }
}
