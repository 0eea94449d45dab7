// Bytes of an image, damaged.
use crate::fault::ShowFault;
use crate::rows::print_image;

// What opening says of the bytes with level 16 for their first item, and of the bytes without the last.
pub fn print_damaged(rt: &(impl Print + AllocGlobal), bytes: Vec<u8>) -> Result<(), ShowFault> {
    let mut damaged = bytes.to_vec(rt.alloc())?;
    if let Some(level) = damaged.get_mut(8) {
        *level = 16;
    }
    print_image(rt, damaged)?;
    let mut shorter = bytes;
    shorter.pop();
    print_image(rt, shorter)?;
    Ok(())
}
