// The type of what is grown, with what holds of each of its values.
ghost use Rattle.std.specs.Prelude.{length};
ghost use Rattle.std.proofs.Props.{props};
ghost use Rattle.placed.specs.Signs.{Within};
ghost use Rattle.frames.specs.Fitted.{fitted};
ghost use Rattle.rows.specs.Rows.{groups_of, AllWithin};

use super::MOST_GROUPS;
use fixed::row::Row;
use managing::manned::Manned;
use placed::Placed;

// A manned frame, the table of its lines so far, and one more line. They name no lever that the frame has not.
#[derive(Drop)]
pub(super) struct Growth<'a, C> {
    pub(super) frame: Manned<'a, C>,
    pub(super) table: &'a Row<Placed, MOST_GROUPS>,
    pub(super) line: Placed,
    ghost table_within: { AllWithin (length (fitted frame.plates.now)) (groups_of table.now) } by { Prim.hlevel props },
    ghost line_within: { Within (length (fitted frame.plates.now)) line },
}
