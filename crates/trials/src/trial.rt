// The trial: the table and the cut list of a small frame by their definitions, from every group and every setting there is.
use super::signs::{Mark, Marks, Setting, State};
use crews::crew::Crew;
use std::alloc::{AllocError, Global};
use std::cmp::Ordering;

// The items of a group, in rising plates.
pub type Listing = Vec<(u32, Mark)>;

// What the trial makes of lines: the table and the cut list of the lines in force, how many these are, and the line that
// ended them because it would leave no possible setting, if there is one.
#[derive(Drop)]
pub struct Trial {
    pub table: Vec<Listing>,
    pub cut: Vec<Listing>,
    pub lines: usize,
    pub ended_by: Option<Marks>,
}

// Tries every setting and every group. The first line that would leave no possible setting ends the frame. Memory, the crew
// and the plates go down from here one by one: a struct of them would only be taken apart again.
pub fn try_all<C: Crew>(
    heap: Global,
    crew: &C,
    plates: &[u32],
    lines: &[Marks],
) -> Result<Trial, AllocError> {
    let settings = admitted(heap, crew, plates)?;
    let force = in_force(settings.as_slice(), lines);
    let possible = permitted(heap, settings.as_slice(), force)?;
    let table = table(heap, crew, plates, possible.as_slice())?;
    let cut = cut_list(heap, plates, settings.as_slice(), force)?;
    Ok(Trial {
        table,
        cut,
        lines: force.len(),
        ended_by: lines.get(force.len()).copied(),
    })
}

// The settings that the crew admits.
fn admitted<C: Crew>(heap: Global, crew: &C, plates: &[u32]) -> Result<Vec<Setting>, AllocError> {
    let mut settings = Vec::new(heap);
    for setting in &Setting::every(heap, plates.len())? {
        let moving = plates_with(heap, plates, &setting.states, &State::Between)?;
        if crew.admits(moving.as_slice()) {
            settings.push(*setting)?;
        }
    }
    Ok(settings)
}

// The lines before the first that would leave none of the settings.
fn in_force<'a>(settings: &[Setting], lines: &'a [Marks]) -> &'a [Marks] {
    let ends = (0..lines.len()).find(|at| !leave_some(settings, &lines[..at + 1]));
    match ends {
        Some(at) => &lines[..at],
        None => lines,
    }
}

// Whether one of the settings shows none of the lines.
fn leave_some(settings: &[Setting], lines: &[Marks]) -> bool {
    settings.iter().any(|setting| !setting.shows_any(lines))
}

// Those of the settings that show none of the lines.
fn permitted(
    heap: Global,
    settings: &[Setting],
    lines: &[Marks],
) -> Result<Vec<Setting>, AllocError> {
    settings
        .iter()
        .filter(|setting| !setting.shows_any(lines))
        .copied()
        .collect(heap)
}

// The table, where these settings are the possible ones.
fn table<C: Crew>(
    heap: Global,
    crew: &C,
    plates: &[u32],
    possible: &[Setting],
) -> Result<Vec<Listing>, AllocError> {
    let mut forbidden = Vec::new(heap);
    for group in &Marks::every(heap, plates.len())? {
        let stars = plates_with(heap, plates, &group.marks, &Some(Mark::Star))?;
        if crew.admits(stars.as_slice()) && !shown(possible, group) {
            forbidden.push(*group)?;
        }
    }
    shortest(heap, plates, forbidden.as_slice())
}

// Whether one of the settings shows a group.
fn shown(settings: &[Setting], group: &Marks) -> bool {
    settings.iter().any(|setting| setting.shows(group))
}

// The listings of the groups that no other of them covers, in order. A `for`, since each turn may run out of memory.
fn shortest(heap: Global, plates: &[u32], forbidden: &[Marks]) -> Result<Vec<Listing>, AllocError> {
    let mut table = Vec::new(heap);
    for group in forbidden {
        if !covered_by_other(forbidden, group) {
            table.push(list(heap, plates, group)?)?;
        }
    }
    table.sort_by(in_table)?;
    Ok(table)
}

// Whether another of the groups covers a group.
fn covered_by_other(forbidden: &[Marks], group: &Marks) -> bool {
    forbidden
        .iter()
        .any(|other| other != group && other.covers(group))
}

// The order of groups in a table: by the number of items, and then item by item, the lower plate first, and at equal plates
// by the sign.
fn in_table(a: &Listing, b: &Listing) -> Ordering {
    a.len().cmp(&b.len()).then_with(|| a.cmp(b))
}

// The cut list of lines, where the crew admits these settings: from the last line to the first, a line is left out if no
// setting that the other lines still on the list permit shows it.
fn cut_list(
    heap: Global,
    plates: &[u32],
    settings: &[Setting],
    lines: &[Marks],
) -> Result<Vec<Listing>, AllocError> {
    let mut behind = Vec::new(heap);
    let mut cut = Vec::new(heap);
    let mut left = lines;
    while let Some((line, before)) = left.split_last() {
        if is_needed(settings, before, behind.as_slice(), line) {
            behind.push(*line)?;
            cut.push(list(heap, plates, line)?)?;
        }
        left = before;
    }
    cut.reverse();
    Ok(cut)
}

// Whether one of the settings shows a line, and no line before or behind it.
fn is_needed(settings: &[Setting], before: &[Marks], behind: &[Marks], line: &Marks) -> bool {
    settings.iter().any(|setting| {
        setting.shows(line) && !setting.shows_any(before) && !setting.shows_any(behind)
    })
}

// The plates of the levers of which a group or a setting says this.
fn plates_with<T: PartialEq>(
    heap: Global,
    plates: &[u32],
    said: &[T],
    this: &T,
) -> Result<Vec<u32>, AllocError> {
    plates
        .iter()
        .zip(said.iter())
        .filter(|(_, one)| *one == this)
        .map(|(plate, _)| *plate)
        .collect(heap)
}

// The items of a group, by the plates of the levers.
pub(super) fn list(heap: Global, plates: &[u32], group: &Marks) -> Result<Listing, AllocError> {
    plates
        .iter()
        .zip(group.marks.iter())
        .filter_map(|(plate, mark)| mark.map(|mark| (*plate, mark)))
        .collect(heap)
}
