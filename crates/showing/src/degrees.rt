// The same question put to the three placements.
use placements::{AtClock, Behind, ByDegree, Entry, Placement};
use std::io;

// Where a new transaction would stand, from 1 to 9, over active work below at 3, 5 and 8.
pub fn print_degrees(rt: &impl Print) -> io::Result<()> {
    let active = [
        Entry { level: 0, stamp: 3 },
        Entry { level: 1, stamp: 5 },
        Entry { level: 2, stamp: 8 },
    ];
    println!(rt; "Where a new transaction stands, from 1 to 9, over active work at 3, 5 and 8.")?;
    println!(rt; "degree  behind  at the clock  by degree")?;
    for degree in [0, 33, 34, 66, 67, 100] {
        let behind = Behind.place(degree, 1, 9, &active);
        let clock = AtClock.place(degree, 1, 9, &active);
        let share = ByDegree.place(degree, 1, 9, &active);
        println!(rt; "{degree:>6}{behind:>8}{clock:>14}{share:>11}")?;
    }
    Ok(())
}
