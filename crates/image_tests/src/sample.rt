// An image of two items: item 0 at level 1 with versions 0, 2 and 5, the last pending, and item 1 at level 3 with one.
use std::alloc::{AllocError, Global};

pub const LENGTH: usize = 396;

// Where item 0's first place begins, and item 1's.
pub const FIRST: usize = 12;

pub const SECOND: usize = 204;

// The sample with one byte changed.
pub fn sample(heap: Global, at: usize, byte: u8) -> Result<Vec<u8>, AllocError> {
    let mut bytes = vec![in heap; 0; LENGTH]?;
    let fields = [
        (0, 2),
        (4, 140),
        (5, 1),
        (8, 1),
        (9, 3),
        (10, 3),
        (11, 1),
        (FIRST + 16, 10),
        (FIRST + 24, 2),
        (FIRST + 28, 4),
        (FIRST + 48, 5),
        (FIRST + 52, 4),
        (FIRST + 60, 1),
        (SECOND + 16, 30),
        (at, byte),
    ];
    for (at, byte) in fields {
        if let Some(place) = bytes.get_mut(at) {
            *place = byte;
        }
    }
    Ok(bytes)
}
