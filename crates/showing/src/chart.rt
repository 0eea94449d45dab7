// The chart of an order.
ghost use Rattle.std.specs.Prelude.{◌≡◌, IfOk, string_bytes};
ghost use Rattle.showing.specs.Charts.{mark, chart_row};

use crate::fault::ShowFault;
use orders::LevelOrder;
use std::alloc::{AllocError, Global};

// An x where the row's level dominates the column's.
fn mark<O: LevelOrder>(order: &O, row: u8, column: u8) -> &'static str
    ensures { result.now ≡ mark (O.LevelOrder.meaning order.now) row column }
{
    if order.dominates(row, column) {
        "  x"
    } else {
        "  ."
    }
}

// A row of the chart: a mark in the column of each level that `level` dominates.
fn chart_row<O: LevelOrder>(heap: Global, order: &O, level: u8) -> Result<String, AllocError>
    ensures { IfOk result (λ s. string_bytes s ≡ chart_row (O.LevelOrder.meaning order.now) level) }
{
    (0..order.levels())
        .map(|column| mark(order, level, column))
        .collect(heap)
}

pub fn print_chart<O: LevelOrder>(
    rt: &(impl Print + AllocGlobal),
    order: &O,
) -> Result<(), ShowFault> {
    println!(rt; "Who reads whom: the row's level reads the column's where there is an x.")?;
    print!(rt; "   ")?;
    // An order is asked by the numbers of its levels; it has no list of them.
    for column in 0..order.levels() {
        print!(rt; "{column:>3}")?;
    }
    println!(rt; "")?;
    for row in 0..order.levels() {
        let marks = chart_row(rt.alloc(), order, row)?;
        println!(rt; "{row:>3}{marks}")?;
    }
    Ok(())
}

#[cfg(test)]
mod tests {
    use super::*;
    use orders::Chain;
    use std::test::Fail;

    #[test]
    fn a_row_of_a_chain(rt: HostRuntime) -> Result<(), Fail> {
        let chain = Chain::new(3)?;
        for (level, marks) in [(0, "  x  .  ."), (1, "  x  x  ."), (2, "  x  x  x")] {
            let row = chart_row(rt.alloc(), &chain, level)?;
            assert_eq!(rt; row.as_str(), marks);
        }
        Ok(())
    }
}
