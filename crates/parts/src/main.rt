// Reads wall labels, a line each, builds the level order of those that are accepted, and prints the answer to each
// line and the chart of who reads whom; then where a new transaction would stand under each placement,
// and the same edits of a drawer and of the image that it is laid out as.
#![tactic(auto)]

use image::lay_out_shelf;
use shelves::{Drawer, Shelf};
use showing::{print_damaged, print_edits, print_heading, print_image, print_parts, two_items};

// A shelf laid out into new bytes; a refusal is printed with its number and offset.
fn laid_out<S: Shelf>(rt: &HostRuntime, shelf: &S, length: usize) -> anyhow::Result<Vec<u8>> {
    let mut bytes = vec![in rt.alloc(); 0u8; length]?;
    if let Err(fault) = lay_out_shelf(shelf, bytes.as_mut_slice()) {
        let number = u8::from(fault);
        let offset = fault.offset;
        println!(rt; "not laid out: {number}, offset {offset}")?;
    }
    Ok(bytes)
}

fn print_refused(rt: &HostRuntime, drawer: &mut Drawer) -> anyhow::Result<()> {
    println!(rt; "The drawer laid out into a byte too many, and with an item at level 16.")?;
    laid_out(rt, drawer, 397)?;
    drawer.add(16, 1)?;
    laid_out(rt, drawer, 590)?;
    Ok(())
}

fn main(rt: HostRuntime) -> anyhow::Result<()> {
    print_parts(&rt)?;
    print_heading(&rt)?;
    let mut drawer = two_items()?;
    let before = laid_out(&rt, &drawer, 396)?;
    print_edits(&rt, &mut drawer)?;
    println!(rt; "An image laid out from the same drawer, edited alike.")?;
    print_image(&rt, before)?;
    println!(rt; "The edited drawer laid out, its first level damaged, and its last byte lost.")?;
    print_damaged(&rt, laid_out(&rt, &drawer, 396)?)?;
    print_refused(&rt, &mut drawer)
}
