// Two sides of a case, a wall between them, an open level below both and a reading pass above both. One side's level is asked the same
// with and without the work that is hidden from it, over schedulers of different kinds of parts, and is answered the same. Then the pass
// above reads everything, once behind the work below it and once after it.
#![tactic(auto)]

use pass::print_pass;
use side::print_side;

mod pass;
mod scene;
mod side;
mod text;
mod view;

fn main(rt: HostRuntime) -> anyhow::Result<()> {
    print_side(&rt)?;
    print_pass(&rt)
}
