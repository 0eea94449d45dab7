// Reads wall labels, a line each, builds the level order of those that are accepted, and prints the answer to each
// line and the chart of who reads whom; then where a new transaction would stand under each placement,
// and the same edits of a drawer and of an image.
#![tactic(auto)]

use showing::{print_damaged, print_drawer, print_image, print_parts, two_items};
use std::alloc::{AllocError, Global};

// An image of one item at level 0 with the first value 100.
fn one_item(heap: Global) -> Result<Vec<u8>, AllocError> {
    let mut bytes = vec![in heap; 0u8; 202]?;
    for (at, byte) in [(0, 1), (4, 202), (9, 1), (26, 100)] {
        if let Some(place) = bytes.get_mut(at) {
            *place = byte;
        }
    }
    Ok(bytes)
}

fn main(rt: HostRuntime) -> anyhow::Result<()> {
    print_parts(&rt)?;
    print_drawer(&rt, &mut two_items()?)?;
    println!(rt; "An image with the same first row, edited alike.")?;
    print_image(&rt, one_item(rt.alloc())?)?;
    println!(rt; "The same bytes with level 16, and without the last.")?;
    print_damaged(&rt, one_item(rt.alloc())?)?;
    Ok(())
}
