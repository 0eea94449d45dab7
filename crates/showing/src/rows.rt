// Rows of versions, and edits of them.
ghost use Rattle.std.specs.Prelude.{◌≡◌, IfOk};
ghost use Rattle.shelves.specs.Drawers.{drawer_items};
ghost use Rattle.showing.specs.Samples.{pending, edits_shown, items_after_all};

use image::Image;
use shelves::{Drawer, Shelf, State, Version};
use std::{fmt, io};

// A version as a line shows it: number, stamp and value, with a star while it is pending.
// A type round the version, since that has no text of its own, and an impl for it could stand only beside it, in `shelves`.
#[derive(Drop)]
struct Shown(Version);

impl fmt::Display for Shown {
    fn fmt<W: fmt::Write>(&self, f: &mut fmt::Formatter<W>) -> fmt::Result {
        let number = self.0.number;
        let stamp = self.0.stamp;
        let value = self.0.value;
        let star = match self.0.state {
            State::Committed => "",
            State::Pending => "*",
        };
        write!(f, "{number}@{stamp}={value}{star}")
    }
}

fn print_row<S: Shelf>(rt: &impl Print, shelf: &S, item: u32) -> io::Result<()> {
    let level = shelf.level(item);
    print!(rt; "  item {item}, level {level}:")?;
    for version in (0..shelf.versions(item)).filter_map(|place| shelf.look(item, place)) {
        print!(rt; "  {}", Shown(version))?;
    }
    println!(rt; "")
}

fn print_edit(rt: &impl Print, name: &str, accepted: bool) -> io::Result<()> {
    let answer = if accepted { "yes" } else { "no" };
    println!(rt; "{name}: {answer}")
}

// A sample, written out: the version that a write makes is a matter of the steps, which no shelf knows.
fn pending(number: u32, stamp: u32, value: u64) -> Version
    ensures { result ≡ pending number stamp value }
{
    Version {
        number,
        stamp,
        mark: number,
        state: State::Pending,
        value,
    }
}

// The first row, the same edits on any shelf, and every row after them.
pub fn print_edits<S: Shelf>(rt: &impl Print, shelf: &mut S) -> io::Result<()>
    ensures { IfOk result (λ _. S.Shelf.items shelf.new ≡ items_after_all (S.Shelf.items shelf.old) edits_shown) }
{
    print_row(rt, shelf, 0)?;
    print_edit(
        rt,
        "insert 2 behind the first",
        shelf.insert(0, 1, pending(2, 3, 22)),
    )?;
    print_edit(
        rt,
        "insert 1 between them",
        shelf.insert(0, 1, pending(1, 3, 11)),
    )?;
    print_edit(
        rt,
        "insert 3 out of order",
        shelf.insert(0, 0, pending(3, 3, 33)),
    )?;
    print_edit(rt, "remove the only committed version", shelf.remove(0, 0))?;
    print_edit(rt, "remove 1", shelf.remove(0, 1))?;
    print_edit(rt, "edit an unknown item", shelf.remove(9, 0))?;
    // A shelf is asked item by item, by number.
    for item in 0..shelf.count() {
        print_row(rt, shelf, item)?;
    }
    Ok(())
}

// What stands above a drawer. By itself: a program may have work to do between it and the rows, which can fail.
pub fn print_heading(rt: &impl Print) -> io::Result<()> {
    println!(rt; "A drawer, each version as number@stamp=value, with a star while it is pending.")
}

// A drawer, edited.
pub fn print_drawer(rt: &impl Print, drawer: &mut Drawer) -> io::Result<()>
    ensures { IfOk result (λ _. drawer_items drawer.new ≡ items_after_all (drawer_items drawer.old) edits_shown) }
{
    print_heading(rt)?;
    print_edits(rt, drawer)
}

// The same edits on an image of the bytes, if they are one.
pub fn print_image(rt: &impl Print, bytes: Vec<u8>) -> io::Result<()> {
    match Image::open(bytes) {
        Ok(mut image) => print_edits(rt, &mut image),
        Err(refused) => {
            let number = u8::from(&refused);
            let offset = refused.offset;
            println!(rt; "no image: {number}, offset {offset}")
        }
    }
}
