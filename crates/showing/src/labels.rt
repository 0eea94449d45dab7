// Wall labels read from lines of text.
ghost use Rattle.std.specs.Prelude.{◌≡◌, true, is_err};
ghost use Rattle.orders.specs.Walled.{labels_of};
ghost use Rattle.showing.specs.Lines.{label_in, line_answer, labels_after};
ghost use Rattle.showing.specs.declared.labels.LabelFault.TheVariants.{Refused};

use orders::{Label, OrderRefusal, WallsBuilder};
use thiserror::Error;

// Why the label of a line was not taken.
#[derive(Clone, Copy, PartialEq, Eq, Debug, Error)]
pub enum LabelFault {
    #[error("not a rank and a set of walls")]
    NotUnderstood,
    #[error("{number}, {reason}", number = u8::from(*.0), reason = reason(*.0))]
    Refused(OrderRefusal),
}

impl From<OrderRefusal> for LabelFault {
    ghost from_gives = { λ refusal fault. fault ≡ Refused refusal };

    fn from(refusal: OrderRefusal) -> LabelFault {
        LabelFault::Refused(refusal)
    }
}

// Why a label was refused, in the words of a list of labels, which programs print; the refusal's own message is in those of any order.
fn reason(refusal: OrderRefusal) -> &'static str {
    match refusal {
        OrderRefusal::LevelCount => "there are sixteen levels already",
        OrderRefusal::LawBroken => "a level has this label already",
    }
}

// A line is a rank and the number of a set of walls, in decimal, with a space between them.
fn read_label(line: &str) -> Option<Label>
    ensures { result ≡ label_in line.now }
{
    let (rank, walls) = line.split_once(' ')?;
    let rank = rank.parse::<u8>().ok()?;
    let walls = walls.parse::<u16>().ok()?;
    Some(Label { rank, walls })
}

// Adds the label that a line says. If it is not taken, the builder is as it was.
pub fn take_label(builder: &mut WallsBuilder, line: &str) -> Result<(), LabelFault>
    ensures answer { result ≡ line_answer (labels_of builder.old) (label_in line.now) }
    ensures after { labels_of builder.new ≡ labels_after (labels_of builder.old) (label_in line.now) }
    ensures refused { is_err result ≡ true → builder.new ≡ builder.old }
{
    let label = read_label(line).ok_or(LabelFault::NotUnderstood)?;
    builder.add(label)?;
    Ok(())
}
