// The reading pass above the walls, behind the work below it and after it.
use crate::scene::{WORK, drawer, walls};
use crate::text::{Line, Shown};
use placements::ByDegree;
use rules::Reply;
use runs::run;
use scheduler::Scheduler;

pub fn print_pass(rt: &HostRuntime) -> anyhow::Result<()> {
    let mut scheduler = Scheduler::new(walls()?, ByDegree, drawer()?);
    let mut answers = [Ok(Reply::Done); 12];
    run(&mut scheduler, &WORK, &mut answers)?;
    println!(rt;
        "A pass above both walls: at degree 0 it reads at once, at degree 100 it waits for the work below."
    )?;
    for (call, answer) in WORK.iter().zip(&answers) {
        println!(rt; "  {}: {}", Line(*call), Shown(*answer))?;
    }
    Ok(())
}
