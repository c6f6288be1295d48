// Worked examples, as texts, and what the engine makes of them.
use super::agreeing::agree;
use super::running::{Outcome, frame_of_groups, run_lines};
use crews::any::AnyCrew;
use crews::crew::Crew;
use crews::free::Free;
use crews::hands::Hands;
use frames::plates::Plates;
use groups::group::Group;
use groups::items::{Item, Sign};
use growing::Stop;
use lines::line::Line;
use managing::manned::Manned;
use placed::Placed;
use reading::reader::read_group;
use std::alloc::{AllocError, Global};

// Lines, a crew, and the table of the lines with this crew.
type Small = (&'static [&'static str], AnyCrew, &'static [&'static str]);

// Lines of which the last is not on the cut list. Either of the last two can be left out, but not both.
const EITHER: [&str; 4] = ["(6+ 7-)", "(6- 7+)", "(5- 6-)", "(5- 7-)"];

// Lines of seven levers with which (7- 30-) is forbidden.
const SEVEN: [&str; 8] = [
    "(7- 15+ 24+)",
    "(15- 16+)",
    "(16- 23-)",
    "(23- 24-)",
    "(24+ 25-)",
    "(25* 30-)",
    "(23+ 25+ 30-)",
    "(7- 24- 30-)",
];

// The plates that lines name, and what the engine makes of the lines.
#[derive(Clone, Copy)]
struct Ran {
    plates: Plates,
    outcome: Outcome,
}

impl Ran {
    // Whether this is the table. Where nothing would be possible, it is the one group of no items.
    fn has_table(&self, table: &[&str]) -> bool {
        match self.outcome.stop {
            None => are_spelled(&self.plates, self.outcome.table.all(), table),
            Some(Stop::NothingPossible) => are_spelled(&self.plates, &[Placed::empty()], table),
            Some(Stop::TooMany) => false,
        }
    }

    // Whether this is the cut list.
    fn has_cut_list(&self, lines: &[&str]) -> bool {
        are_spelled(&self.plates, self.outcome.cut.all(), lines)
    }

    // How many groups the table has, if this is one of them.
    fn groups_with(&self, text: &str) -> Option<usize> {
        let groups = self.outcome.table.all();
        let found = groups
            .iter()
            .any(|group| is_spelled(&self.plates, *group, text));
        found.then_some(groups.len())
    }
}

// The small frames. Any levers can be between together, or no more than a crew has hands.
fn small() -> [Small; 10] {
    let free = AnyCrew::Free(Free);
    let none = AnyCrew::Hands(Hands::new(0));
    let one = AnyCrew::Hands(Hands::new(1));
    [
        (&[], free, &[]),
        (&["(5+ 6-)", "(5- 6-)"], free, &["(6-)"]),
        (
            &["(5+ 6+)", "(5- 6-)"],
            free,
            &["(5*)", "(6*)", "(5+ 6+)", "(5- 6-)"],
        ),
        (&["(5+ 6+)", "(5- 6-)"], none, &["(5+ 6+)", "(5- 6-)"]),
        (&["(5+ 6*)", "(5- 6-)"], free, &["(6*)", "(5- 6-)"]),
        (
            &["(5+ 6+ 7-)", "(5- 6- 8-)"],
            free,
            &["(5+ 6+ 7-)", "(5- 6- 8-)", "(5* 7- 8-)", "(6* 7- 8-)"],
        ),
        (
            &["(5+ 6+ 7+)", "(5- 6- 7-)"],
            free,
            &["(5* 6*)", "(5* 7*)", "(6* 7*)", "(5+ 6+ 7+)", "(5- 6- 7-)"],
        ),
        (
            &["(5+ 6+ 7+)", "(5- 6- 7-)"],
            one,
            &["(5+ 6+ 7+)", "(5- 6- 7-)"],
        ),
        (
            &["(5+ 6-)", "(6+ 7-)", "(7+ 8-)"],
            free,
            &[
                "(5+ 6-)", "(5+ 7-)", "(5+ 8-)", "(6+ 7-)", "(6+ 8-)", "(7+ 8-)",
            ],
        ),
        (&["(5+)", "(5-)"], free, &["()"]),
    ]
}

// How many small frames have the tables that they should have. A `for`, since each turn may fail.
pub fn small_frames(heap: Global) -> Result<usize, AllocError> {
    let mut count: usize = 0;
    for (lines, crew, table) in small() {
        let ran = run_texts(heap, &crew, lines)?;
        let right = ran.is_some_and(|ran| ran.has_table(table));
        count = count.saturating_add(usize::from(right));
    }
    Ok(count)
}

// Whether all but the last of four lines are their cut list.
pub fn last_is_cut(heap: Global) -> Result<bool, AllocError> {
    let ran = run_texts(heap, &Free, &EITHER)?;
    Ok(ran.is_some_and(|ran| ran.has_cut_list(&EITHER[0..3])))
}

// How many groups the table of the lines of seven levers has, if (7- 30-) is one of them.
pub fn seven_levers(heap: Global) -> Result<Option<usize>, AllocError> {
    let ran = run_texts(heap, &Free, &SEVEN)?;
    Ok(ran.and_then(|ran| ran.groups_with("(7- 30-)")))
}

// What the engine makes of so many lines (1- a-), (2- b-) and (3- c-), each with a lever of its own, and then (1+ 2+ 3+).
pub fn fan(heap: Global, counts: [u32; 3]) -> Result<Option<Outcome>, AllocError> {
    let ran = run(heap, &Free, fan_lines(heap, counts)?.as_slice())?;
    Ok(ran.map(|ran| ran.outcome))
}

// The lines of a fan. A `for`, since each turn may run out of memory.
fn fan_lines(heap: Global, counts: [u32; 3]) -> Result<Vec<Group>, AllocError> {
    const HUBS: [u32; 3] = [1, 2, 3];
    let mut lines = Vec::new(heap);
    let mut plates = 4..=u32::MAX;
    for (hub, count) in HUBS.iter().zip(counts.iter()) {
        for plate in plates.by_ref().take(*count as usize) {
            lines.push(group_of(&[*hub, plate], Sign::Minus))?;
        }
    }
    lines.push(group_of(&HUBS, Sign::Plus))?;
    Ok(lines)
}

// The group of some plates, each with the same sign.
fn group_of(plates: &[u32], sign: Sign) -> Group {
    let mut group = Group::new();
    for plate in plates {
        let plate = *plate;
        let _ = group.insert(Item { plate, sign });
    }
    group
}

// Reads lines and runs them. Nothing where a text is no group, or the lines cannot be run.
fn run_texts<C: Crew>(heap: Global, crew: &C, texts: &[&str]) -> Result<Option<Ran>, AllocError> {
    let mut lines = Vec::new(heap);
    for text in texts {
        let Ok(group) = read_group(text.as_bytes(), 0) else {
            return Ok(None);
        };
        lines.push(group)?;
    }
    run(heap, crew, lines.as_slice())
}

// Fits the plates that lines name, and runs the lines. Nothing where there is no frame for the plates.
fn run<C: Crew>(heap: Global, crew: &C, lines: &[Group]) -> Result<Option<Ran>, AllocError> {
    let Some(plates) = frame_of_groups(heap, lines)? else {
        return Ok(None);
    };
    let ran = run_lines(
        Manned {
            crew,
            plates: &plates,
        },
        lines,
    )
    .map(|outcome| Ran { plates, outcome });
    Ok(ran.ok())
}

// Whether the groups are spelled by the texts, one by one.
fn are_spelled(plates: &Plates, groups: &[Placed], texts: &[&str]) -> bool {
    agree(groups, texts, |group, text| {
        is_spelled(plates, *group, text)
    })
}

// Whether a group is spelled by a text.
fn is_spelled(plates: &Plates, group: Placed, text: &str) -> bool {
    let mut line = Line::new();
    line.put_group(&plates.spell(group));
    line.text() == text.as_bytes()
}
