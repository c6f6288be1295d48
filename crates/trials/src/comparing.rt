// Drawn frames through the engine and through the trial, and whether the two agree.
use super::agreeing::agree;
use super::drawing::Drawn;
use super::running::{Outcome, run_lines};
use super::signs::{Mark, Marks};
use super::trial::{Listing, Trial, list, try_all};
use crews::crew::Crew;
use frames::plates::Plates;
use groups::group::Group;
use groups::items::{Item, Sign};
use growing::Stop;
use managing::manned::Manned;
use placed::Placed;
use std::alloc::{AllocError, Global};
use std::fmt;

// How many frames were compared, on how many of them engine and trial agree, and of the trial how many lines were in force,
// how many groups the tables have, how many lines the cut lists have, and how many frames a line ended that would have left
// no possible setting.
#[derive(Clone, Copy, Default)]
pub struct Tally {
    pub frames: usize,
    pub agreed: usize,
    pub lines: usize,
    pub groups: usize,
    pub cut: usize,
    pub ended: usize,
}

impl Tally {
    // Counts one more frame.
    fn count(&mut self, trial: &Trial, agreed: bool) {
        self.frames = self.frames.saturating_add(1);
        self.agreed = self.agreed.saturating_add(usize::from(agreed));
        self.lines = self.lines.saturating_add(trial.lines);
        self.groups = self.groups.saturating_add(trial.table.len());
        self.cut = self.cut.saturating_add(trial.cut.len());
        self.ended = self
            .ended
            .saturating_add(usize::from(trial.ended_by.is_some()));
    }
}

impl fmt::Display for Tally {
    // What was counted, in one line.
    fn fmt<W: fmt::Write>(&self, f: &mut fmt::Formatter<W>) -> fmt::Result {
        let frames = self.frames;
        let agreed = self.agreed;
        let lines = self.lines;
        let groups = self.groups;
        let cut = self.cut;
        let ended = self.ended;
        write!(
            f,
            "{agreed} of {frames} frames agree; {lines} lines, {groups} groups, {cut} lines on cut lists, {ended} frames ended early"
        )
    }
}

impl From<Mark> for Sign {
    // The engine's sign.
    fn from(mark: Mark) -> Sign {
        match mark {
            Mark::Plus => Sign::Plus,
            Mark::Minus => Sign::Minus,
            Mark::Star => Sign::Star,
        }
    }
}

impl From<Sign> for Mark {
    // The trial's sign.
    fn from(sign: Sign) -> Mark {
        match sign {
            Sign::Plus => Mark::Plus,
            Sign::Minus => Mark::Minus,
            Sign::Star => Mark::Star,
        }
    }
}

// Compares what engine and trial make of a frame with a crew.
pub fn compare<C: Crew>(
    heap: Global,
    crew: &C,
    frame: &Drawn,
    tally: &mut Tally,
) -> Result<(), AllocError> {
    let plates = frame.plates.as_slice();
    let trial = try_all(heap, crew, plates, frame.lines.as_slice())?;
    let groups = spell_all(heap, plates, frame.lines.as_slice())?;
    let agreed = Plates::try_from(plates).is_ok_and(|plates| {
        let plates = &plates;
        runs_like(Manned { crew, plates }, groups.as_slice(), &trial)
    });
    tally.count(&trial, agreed);
    Ok(())
}

// Whether the engine makes of the lines what the trial does.
fn runs_like<C: Crew>(frame: Manned<'_, C>, groups: &[Group], trial: &Trial) -> bool {
    run_lines(frame, groups).is_ok_and(|outcome| agrees(frame.plates, &outcome, trial))
}

// Whether both have the same lines in force, the same table and the same cut list.
fn agrees(plates: &Plates, outcome: &Outcome, trial: &Trial) -> bool {
    outcome.lines == trial.lines
        && ends_alike(outcome.stop, trial.ended_by.is_some())
        && are_listed(plates, outcome.table.all(), trial.table.as_slice())
        && are_listed(plates, outcome.cut.all(), trial.cut.as_slice())
}

// Whether the engine went on to the end if the trial did, and else found that nothing would be possible.
fn ends_alike(stop: Option<Stop>, ended: bool) -> bool {
    match stop {
        None => !ended,
        Some(Stop::NothingPossible) => ended,
        Some(Stop::TooMany) => false,
    }
}

// Whether the groups are those of the listings, one by one.
fn are_listed(plates: &Plates, groups: &[Placed], listings: &[Listing]) -> bool {
    agree(groups, listings, |group, listing| {
        is_listed(plates.spell(*group).items(), listing.as_slice())
    })
}

// Whether the items are those of a listing, one by one.
fn is_listed(items: &[Item], listing: &[(u32, Mark)]) -> bool {
    agree(items, listing, |item, (plate, mark)| {
        item.plate == *plate && Mark::from(item.sign) == *mark
    })
}

// The groups of the lines. A `for`, since each turn may run out of memory.
fn spell_all(heap: Global, plates: &[u32], lines: &[Marks]) -> Result<Vec<Group>, AllocError> {
    let mut groups = Vec::new(heap);
    for line in lines {
        groups.push(spell(list(heap, plates, line)?.as_slice()))?;
    }
    Ok(groups)
}

// The group of some items.
fn spell(listing: &[(u32, Mark)]) -> Group {
    let mut group = Group::new();
    for (plate, mark) in listing {
        let plate = *plate;
        let sign = Sign::from(*mark);
        let _ = group.insert(Item { plate, sign });
    }
    group
}
