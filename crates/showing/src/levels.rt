// The levels that the lines of the input make.
use crate::chart::print_chart;
use crate::fault::ShowFault;
use crate::labels::take_label;
use orders::WallsBuilder;

// Reads labels, a line each, and prints the answer to each line and the chart of the order of the labels taken.
pub fn print_levels(rt: &(impl Input + Print + AllocGlobal)) -> Result<(), ShowFault> {
    let mut builder = WallsBuilder::new();
    for line in rt.lines(rt.alloc()) {
        let line = line?;
        match take_label(&mut builder, line.as_str()) {
            Ok(()) => println!(rt; "{line}: 0, accepted")?,
            Err(fault) => println!(rt; "{line}: {fault}")?,
        }
    }
    match builder.finish() {
        Ok(walls) => print_chart(rt, &walls),
        Err(refusal) => {
            let number = u8::from(refusal);
            println!(rt; "no order, refused with {number}: no label was accepted")?;
            Ok(())
        }
    }
}
