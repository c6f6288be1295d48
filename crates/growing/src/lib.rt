// The table of one more line, grown from the table of the lines so far. None but groups of the table to come are ever held.
// specs/Growth.antt says what is answered; meaning/specs/Laws.antt has the laws that it rests on, and specs/Gathered.antt
// what is known of the groups on the way.
#![tactic(auto)]

ghost use Rattle.std.specs.Prelude.{◌≡◌, ◌<◌, length, IfOk};
ghost use Rattle.placed.specs.Signs.{Within};
ghost use Rattle.frames.specs.Fitted.{fitted};
ghost use Rattle.rows.specs.Rows.{groups_of, AllWithin};
ghost use Rattle.growing.specs.Growth.{GrowsTo, FromLines, TableUpto, NextUpto, OnlyEmpty};
ghost use Rattle.growing.specs.declared.Stop.TheVariants.{TooMany};

use crews::crew::Crew;
use fixed::methods::Full;
use fixed::row::Row;
use growth::Growth;
use managing::manned::Manned;
use placed::Placed;

mod gathering;
mod growth;
mod merging;

// The most groups of a table.
pub const MOST_GROUPS: usize = 512;

// Why there is no table with one more line: no setting would be possible, or the table would have more than 512 groups.
#[derive(Clone, Copy, PartialEq, Eq)]
pub enum Stop {
    NothingPossible,
    TooMany,
}

// How many of the first lines are the first to have a table of more than 512 groups.
#[derive(Clone, Copy, PartialEq, Eq)]
pub struct Overflow {
    pub lines: usize,
}

impl From<Full> for Stop {
    ghost from_gives = { λ _ stop. stop ≡ TooMany };

    fn from(_full: Full) -> Stop {
        Stop::TooMany
    }
}

// The table with one more line, from that of the lines so far.
pub fn grow<C: Crew>(
    frame: Manned<'_, C>,
    table: &Row<Placed, MOST_GROUPS>,
    line: Placed,
) -> Result<Row<Placed, MOST_GROUPS>, Stop>
    requires table { AllWithin (length (fitted frame.plates.now)) (groups_of table.now) }
    requires line { Within (length (fitted frame.plates.now)) line }
    ensures grown { GrowsTo (C.Crew.admitted frame.entry.crew.now) (fitted frame.entry.plates.now) (groups_of table.now) line result }
    ensures within { IfOk result (λ r. AllWithin (length (fitted frame.entry.plates.now)) (groups_of r)) }
{
    let growth = Growth { frame, table, line };
    growth.grown()
}

// The table of some lines, grown from nothing line by line.
pub fn from_lines<C: Crew>(
    frame: Manned<'_, C>,
    lines: &[Placed],
) -> Result<Row<Placed, MOST_GROUPS>, Overflow>
    requires { AllWithin (length (fitted frame.plates.now)) lines.now }
    ensures table { FromLines (C.Crew.admitted frame.entry.crew.now) (fitted frame.entry.plates.now) lines.now result }
    ensures within { IfOk result (λ r. AllWithin (length (fitted frame.entry.plates.now)) (groups_of r)) }
{
    let mut table = Row::new(Placed::empty());
    // by place, since what `with_next` asks and promises is of the first lines up to there
    for at in 0..lines.len() {
        table = with_next(frame, lines, at, &table)?;
    }
    Ok(table)
}

// The table of the lines up to the one at a place, from that of the lines before it.
fn with_next<C: Crew>(
    frame: Manned<'_, C>,
    lines: &[Placed],
    at: usize,
    table: &Row<Placed, MOST_GROUPS>,
) -> Result<Row<Placed, MOST_GROUPS>, Overflow>
    requires lines { AllWithin (length (fitted frame.plates.now)) lines.now }
    requires there { at < length lines.now }
    requires upto { TableUpto (C.Crew.admitted frame.crew.now) (fitted frame.plates.now) lines.now at table.now }
    ensures { NextUpto (C.Crew.admitted frame.entry.crew.now) (fitted frame.entry.plates.now) lines.now at result }
{
    match grow(frame, table, lines[at]) {
        Ok(grown) => Ok(grown),
        Err(Stop::NothingPossible) => Ok(nothing_possible()),
        Err(Stop::TooMany) => Err(Overflow { lines: at + 1 }),
    }
}

// The table of lines that leave no possible setting: the group of no items alone.
fn nothing_possible() -> Row<Placed, MOST_GROUPS>
    ensures { OnlyEmpty (groups_of result) }
{
    let mut row = Row::new(Placed::empty());
    let _ = row.push(Placed::empty());
    row
}

impl<C: Crew> Growth<'_, C> {
    // The table with the line: what the line adds, unless nothing would be possible, merged with the table so far.
    fn grown(&self) -> Result<Row<Placed, MOST_GROUPS>, Stop>
        ensures grown { GrowsTo (C.Crew.admitted self.now.frame.crew.now) (fitted self.now.frame.plates.now) (groups_of self.now.table.now) self.now.line result }
        ensures within { IfOk result (λ r. AllWithin (length (fitted self.now.frame.plates.now)) (groups_of r)) }
    {
        if self.leaves_nothing() {
            return Err(Stop::NothingPossible);
        }
        let mut new = Row::new(Placed::empty());
        self.gather(&mut new)?;
        Ok(merging::merge(self.table, &new)?)
    }
}
