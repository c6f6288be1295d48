// Lines through the engine.
use crews::crew::Crew;
use cutting::{MOST_LINES, cut_list};
use faults::Fault;
use fixed::row::Row;
use frames::plates::Plates;
use groups::group::Group;
use growing::{MOST_GROUPS, Stop, grow};
use managing::manned::Manned;
use placed::Placed;
use std::alloc::{AllocError, Global};
use std::fmt;

// What the engine makes of lines: the table and the cut list of the lines in force, how many these are, and what stopped the
// next, if there is one that was stopped.
#[derive(Clone, Copy)]
pub struct Outcome {
    pub table: Row<Placed, MOST_GROUPS>,
    pub cut: Row<Placed, MOST_LINES>,
    pub lines: usize,
    pub stop: Option<Stop>,
}

impl fmt::Display for Outcome {
    // How many lines, groups and lines of the cut list there are, and what became of the next line.
    fn fmt<W: fmt::Write>(&self, f: &mut fmt::Formatter<W>) -> fmt::Result {
        let lines = self.lines;
        let groups = self.table.all().len();
        let cut = self.cut.all().len();
        let next = match self.stop {
            None => "there is no other line",
            Some(Stop::NothingPossible) => "the next line would leave nothing possible",
            Some(Stop::TooMany) => "with the next line the table would have too many",
        };
        write!(
            f,
            "{lines} lines: {groups} groups, {cut} lines on the cut list; {next}"
        )
    }
}

// Grows the table line by line, to the end or to the first line that is stopped. Refused: a plate that is not fitted.
pub fn run_lines<C: Crew>(frame: Manned<'_, C>, groups: &[Group]) -> Result<Outcome, Fault> {
    let mut table = Row::new(Placed::empty());
    let mut lines = Row::new(Placed::empty());
    let mut stop = None;
    for group in groups {
        let line = frame.plates.place(group)?;
        match grow(frame, &table, line) {
            Ok(grown) => table = grown,
            Err(reason) => {
                stop = Some(reason);
                break;
            }
        }
        let _ = lines.push(line);
    }
    Ok(Outcome {
        table,
        cut: cut_list(frame, &lines),
        lines: lines.all().len(),
        stop,
    })
}

// The frame of the plates that some groups name, if it has places for all of them.
pub fn frame_of_groups(heap: Global, groups: &[Group]) -> Result<Option<Plates>, AllocError> {
    let mut plates = Vec::new(heap);
    for group in groups {
        plates.extend(group.items().iter().map(|item| item.plate))?;
    }
    plates.sort()?;
    plates.dedup();
    Ok(Plates::try_from(plates.as_slice()).ok())
}
