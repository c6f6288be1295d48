// The cut list of the lines in force: the lines that the fitters file. specs/Searching.antt says what is searched, and
// specs/Deciding.antt what is told of one line.
#![tactic(auto)]

ghost use Rattle.std.specs.Prelude.{◌≡◌, ◌++◌, true, List, length};
ghost use Rattle.fixed.specs.Rows.{held};
ghost use Rattle.levers.specs.Sets.{has};
ghost use Rattle.groups.specs.Rises.{climbing};
ghost use Rattle.meaning.specs.Crews.{Lawful};
ghost use Rattle.meaning.specs.CutLists.{IsCutList};
ghost use Rattle.placed.specs.declared.Placed.{Placed};
ghost use Rattle.placed.specs.Spelling.{spell};
ghost use Rattle.rows.specs.Rows.{groups_of, spell_all, AllWithin};
ghost use Rattle.frames.specs.Fitted.{fitted};
ghost use Rattle.managing.specs.Standing.{frame_of};
ghost use Rattle.cutting.specs.Deciding.{Told};
ghost use Rattle.cutting.specs.Searching.{LeversOf};

use self::search::Search;
use crews::crew::Crew;
use fixed::row::Row;
use frames::plates::Plates;
use levers::Levers;
use managing::manned::Manned;
use placed::Placed;

mod search;

// The most lines in force.
pub const MOST_LINES: usize = 128;

// The cut list of the lines of a frame: from the last line to the first, a line is left out if the others still on the
// list permit no setting that shows it.
#[tactic(auto, using(crate::proofs::Turns::none_gone, crate::proofs::Turns::one_gone, crate::proofs::Turns::one_kept, crate::proofs::Turns::all_gone))]
pub fn cut_list<C: Crew>(
    frame: Manned<'_, C>,
    lines: &Row<Placed, MOST_LINES>,
) -> Row<Placed, MOST_LINES>
    ensures cut { IsCutList (frame_of (C.Crew.admitted frame.entry.crew.now) (fitted frame.entry.plates.now) (groups_of lines.now)) (spell_all (fitted frame.entry.plates.now) (groups_of result)) }
    ensures within { AllWithin (length (fitted frame.entry.plates.now)) (groups_of lines.now) → AllWithin (length (fitted frame.entry.plates.now)) (groups_of result) }
{
    let levers = levers_of(frame.plates);
    let mut kept: Row<Placed, MOST_LINES> = Row::new(Placed::empty());
    let mut rest = lines.all();
    while let Some((line, before)) = rest.split_last() {
        let search = Search {
            before,
            behind: kept.all(),
            levers,
        };
        if stays(frame, search, *line) {
            let _ = kept.insert(0, *line);
        }
        rest = before;
    }
    kept
}

// Whether a line stays on the list with the lines of a search.
#[tactic(auto, using(crate::proofs::Asking::told_searched, crate::proofs::Asking::told_unmanaged))]
fn stays<C: Crew>(frame: Manned<'_, C>, search: Search<'_>, line: Placed) -> bool
    requires lawful { Lawful (C.Crew.admitted frame.crew.now) }
    requires rises { climbing 0 (fitted frame.plates.now) ≡ true }
    requires levers { LeversOf (fitted frame.plates.now) search.levers }
    ensures { (lines : List Placed) → Told (frame_of (C.Crew.admitted frame.entry.crew.now) (fitted frame.entry.plates.now) lines) (spell_all (fitted frame.entry.plates.now) (search.entry.before.now ++ search.entry.behind.now)) (spell (fitted frame.entry.plates.now) line) result }
{
    frame.manages(line) && search.escapes(line)
}

// The levers of a frame: a place for each plate. A `fold` is no shorter.
fn levers_of(plates: &Plates) -> Levers
    ensures { LeversOf (fitted plates.now) result }
{
    let mut levers = Levers::none();
    for place in 0..plates.all().len() {
        levers = levers.with(place);
    }
    levers
}
