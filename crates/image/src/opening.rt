// An image: bytes that have been found to have no fault.
ghost use Rattle.std.specs.Prelude.{◌≡◌, true};
ghost use Rattle.image.specs.Images.{is_image};

use thiserror::Error;

mod bytes;
mod edits;
mod shelf;

#[derive(Drop)]
pub struct Image {
    bytes: Vec<u8>,
    ghost ok: { is_image bytes.items ≡ true },
}

// Bytes that are no image, with the offset of their first faulty field.
#[derive(Debug, Drop, Error)]
#[error("no image: the field at byte {offset} is faulty")]
pub struct NotImage {
    pub offset: usize,
    pub bytes: Vec<u8>,
}
