// A scheduler of an order, a placement and a shelf.
ghost use Rattle.std.specs.Prelude.{◌≡◌, length};

use tables::Tables;

#[derive(Drop)]
pub struct Scheduler<O, P, S> {
    pub(crate) order: O,
    pub(crate) placement: P,
    pub(crate) shelf: S,
    // Whether the parts fitted when it was made. A flag: parts that do not fit make a scheduler too, which refuses every call.
    pub(crate) sound: bool,
    pub(crate) clock: u32,
    // A table for each level.
    pub(crate) tables: Tables,
    // Said here too: what `Tables` keeps of itself, a caller of a scheduler would not see.
    ghost sixteen: { length tables ≡ 16 },
}
