// The search for a setting that shows a group and none of some lines. specs/Searching.antt says what is told.
ghost use Rattle.std.specs.Prelude.{◌≡◌, ◌++◌, List, Ok};
ghost use Rattle.levers.specs.Sets.{has};
ghost use Rattle.placed.specs.declared.Placed.{Placed};
ghost use Rattle.cutting.specs.Searching.{SearchedOver, Judged, Surveyed, Weighed, FreeAt, Halved, fewer_of};

use groups::items::Sign;
use levers::Levers;
use placed::Placed;
use std::cmp::min_by_key;

// The lines that a search is to hide, in two parts, and the levers of the frame.
#[derive(Clone, Copy)]
pub(super) struct Search<'a> {
    pub(super) before: &'a [Placed],
    pub(super) behind: &'a [Placed],
    pub(super) levers: Levers,
}

// A line is shown in each setting that shows the group.
#[derive(Clone, Copy)]
struct Shown;

// A lever to try: the lowest of the free levers that a line waits on, and how many these are.
#[derive(Clone, Copy)]
struct Choice {
    lever: usize,
    free: u32,
}

// A group with one more lever, with + and with -.
#[derive(Clone, Copy)]
struct Halves {
    plus: Placed,
    minus: Placed,
}

impl<'a> Search<'a> {
    // Whether there is a setting that shows the group and none of the lines. A lever that the group does not name is tried
    // with + and with -.
    pub(super) fn escapes(&self, set: Placed) -> bool
        ensures { SearchedOver self.now.levers (self.now.before.now ++ self.now.behind.now) set result }
    {
        match self.judge(set) {
            Err(Shown) => false,
            Ok(None) => true,
            Ok(Some(choice)) => {
                let halves = split(self.levers, set, choice.lever);
                self.escapes(halves.plus) || self.escapes(halves.minus)
            }
        }
    }

    // What the lines leave to do: nothing, as no line is shown where the free levers rest, or a lever to try.
    fn judge(&self, set: Placed) -> Result<Option<Choice>, Shown>
        ensures { Judged self.now.levers (self.now.before.now ++ self.now.behind.now) set result }
    {
        let choice = survey(self.before, self.levers, set, None)?;
        survey(self.behind, self.levers, set, choice)
    }
}

// The group with a lever that it leaves free, with + and with -.
#[tactic(auto, using(crate::proofs::Escaping::halved))]
fn split(levers: Levers, set: Placed, lever: usize) -> Halves
    requires { FreeAt levers set lever }
    ensures { Halved levers set result.plus result.minus }
{
    Halves {
        plus: set.with(lever, Sign::Plus),
        minus: set.with(lever, Sign::Minus),
    }
}

// What some lines leave to do, after others that left a choice. The choice is that of a line with the fewest free levers, so
// that the lines that are nearly shown are settled first. The first line that is shown ends it, which a `fold` does no plainer.
#[tactic(auto, using(crate::proofs::Surveying::refused_here))]
fn survey(
    lines: &[Placed],
    levers: Levers,
    set: Placed,
    others: Option<Choice>,
) -> Result<Option<Choice>, Shown>
    ensures { (before : List Placed) → Surveyed levers before set (Ok others) → Surveyed levers (before ++ lines.now) set result }
{
    let mut best = others;
    for line in lines {
        best = fewer(best, weigh(*line, levers, set)?);
    }
    Ok(best)
}

// The choice with fewer free levers, of two that there may be.
fn fewer(best: Option<Choice>, next: Option<Choice>) -> Option<Choice>
    ensures { result ≡ fewer_of best next }
{
    match (best, next) {
        (Some(choice), Some(other)) => Some(min_by_key(choice, other, |choice| choice.free)),
        _ => best.or(next),
    }
}

// How a line stands to the group: shown with it, not shown where the free levers rest, or waiting on some of these.
fn weigh(line: Placed, levers: Levers, set: Placed) -> Result<Option<Choice>, Shown>
    ensures { Weighed levers line set result }
{
    let lacking = set.lacking(line).intersection(levers);
    let settled = set.named().union(line.between());
    if !lacking.intersection(settled).is_none() {
        return Ok(None);
    }
    match lacking.first() {
        None => Err(Shown),
        Some(lever) => Ok(Some(Choice {
            lever,
            free: lacking.count(),
        })),
    }
}
