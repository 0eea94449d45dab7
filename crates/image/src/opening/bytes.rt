// Bytes into an image and out of it.
ghost use Rattle.std.specs.Prelude.{◌≡◌};
ghost use Rattle.image.specs.Layout.{IsImage};
ghost use Rattle.image.specs.Opened.{Opens, bytes_of};

use crate::faults::fault;
use crate::opening::{Image, NotImage};

impl Image {
    // Takes bytes that are an image; others come back, with the offset of their first faulty field.
    pub fn open(bytes: Vec<u8>) -> Result<Image, NotImage>
        ensures { Opens bytes.items result }
    {
        // A match, since either answer takes the bytes.
        match fault(bytes.as_slice()) {
            Some(offset) => Err(NotImage { offset, bytes }),
            None => Ok(Image { bytes }),
        }
    }

    pub(super) fn as_slice(&self) -> &[u8]
        ensures value { result.now ≡ bytes_of self.now }
        ensures image { IsImage result.now }
    {
        self.bytes.as_slice()
    }

    // The bytes again, which ends the image.
    pub fn into_bytes(self) -> Vec<u8>
        ensures { result.items ≡ bytes_of self }
    {
        self.bytes
    }
}

// The number of this refusal.
impl From<&NotImage> for u8 {
    ghost from_gives = { λ _ number. number ≡ 3 };

    fn from(_refusal: &NotImage) -> u8 {
        3
    }
}
