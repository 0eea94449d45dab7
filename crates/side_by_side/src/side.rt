// One side's level, with and without what is hidden from it.
use crate::scene::{BUSY, drawer, table, walls};
use crate::text::{Line, Shown};
use crate::view::{seen_answers, seen_calls};
use placements::ByDegree;
use rules::Reply;
use runs::run_both;
use scheduler::Scheduler;

pub fn print_side(rt: &HostRuntime) -> anyhow::Result<()> {
    let walls = walls()?;
    let quiet = seen_calls(rt.alloc(), &walls, 1, &BUSY)?;
    let mut left = Scheduler::new(walls, ByDegree, drawer()?);
    let mut right = Scheduler::new(table()?, ByDegree, drawer()?);
    let mut answers = [Ok(Reply::Done); 32];
    let mut replies = [Ok(Reply::Done); 32];
    run_both(
        &mut left,
        &BUSY,
        &mut answers,
        &mut right,
        quiet.as_slice(),
        &mut replies,
    )?;
    println!(rt;
        "Level 1, with the work that is hidden from it and without, each call as level/number."
    )?;
    let seen = seen_answers(rt.alloc(), &walls, 1, &BUSY, &answers)?;
    for ((call, answer), reply) in quiet.iter().zip(&seen).zip(&replies) {
        println!(rt; "  {}: {} | {}", Line(*call), Shown(*answer), Shown(*reply))?;
    }
    let agree = seen
        .iter()
        .zip(&replies)
        .all(|(answer, reply)| answer == reply);
    println!(rt; "The answers {}.", if agree { "agree" } else { "differ" })?;
    Ok(())
}
