// All items laid out.
ghost use Rattle.std.specs.Prelude.{◌≡◌, length, None};
ghost use Rattle.std.specs.List.{AllByRecursion};
ghost use Rattle.image.specs.Laid.{rows_fault, laid_out, LaidOut};
ghost use Rattle.image.specs.Writes.{RowFits};

use crate::layout::LayoutFault;
use crate::layout::decide::check;
use crate::layout::fitting::Fitting;
use crate::layout::rows::Rows;

fn write_rows<R: Rows>(rows: &R, bytes: &mut [u8])
    requires { rows_fault (R.items rows.now) (length bytes.old) ≡ None }
    ensures after { bytes.new ≡ laid_out (R.items rows.now) }
    ensures fits { AllByRecursion RowFits (R.items rows.now) }
{
    let rows = Fitting { rows };
    rows.write_head(bytes);
    // A plain loop: of bytes that a chain's closure changed, nothing would be known.
    for item in 0..rows.count() {
        rows.write_item(item, bytes);
    }
}

// Decides first, writes after.
pub(super) fn lay_out_rows<R: Rows>(rows: &R, bytes: &mut [u8]) -> Result<(), LayoutFault>
    ensures { LaidOut (R.items rows.now) bytes.old result bytes.new }
{
    check(rows, bytes.len())?;
    write_rows(rows, bytes);
    Ok(())
}
