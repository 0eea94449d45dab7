// The parts that need no shelf.
use crate::degrees::print_degrees;
use crate::fault::ShowFault;
use crate::levels::print_levels;

// The levels of the input's lines with their chart, then the placements.
pub fn print_parts(rt: &(impl Input + Print + AllocGlobal)) -> Result<(), ShowFault> {
    print_levels(rt)?;
    print_degrees(rt)?;
    Ok(())
}
