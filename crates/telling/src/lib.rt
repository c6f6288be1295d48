// What the table of the lines so far tells of a group under one more line, with no search: whether it is forbidden then, and
// which of its ends can go. specs/Told.antt has the promises; meaning/specs/Laws.antt (`read_off`, `OneMoreLine`) what is told.
#![tactic(auto)]

ghost use Rattle.std.specs.Prelude.{◌≡◌};
ghost use Rattle.telling.specs.Told.{CoveredOver, SettledOver, AllSettledOver, ReadOver};
ghost use Rattle.telling.specs.Gaps.{gap_of};

use groups::items::Sign;
use placed::Placed;

mod shortening;

// The table of the lines so far, and one more line, over levers with places below `places`.
#[derive(Clone, Copy)]
pub struct OneMore<'a> {
    pub table: &'a [Placed],
    pub line: Placed,
    pub places: usize,
}

// What a group leaves open of a line's sign for a lever: three cases, so no Option or Result.
#[derive(Clone, Copy)]
enum Gap {
    Filled,
    Opposite(Sign),
    Open,
}

// Whether one of the groups covers a group.
pub fn covered(table: &[Placed], group: Placed) -> bool
    ensures { CoveredOver table.now group result }
{
    any_covers(table, group)
}

// Whether one of the groups covers a group, one after the other. A `for`: with `any`, which was tried, a table takes up to 13 %
// more time. Apart from `covered`, whose edit would be refused in the answers here first.
fn any_covers(table: &[Placed], group: Placed) -> bool
    ensures { CoveredOver table.now group result }
{
    for other in table {
        if other.covers(group) {
            return true;
        }
    }
    false
}

impl OneMore<'_> {
    // Whether a group is forbidden with the line: one of the table covers the group, or no setting that shows it gets by on an
    // item of the line.
    pub fn tells(&self, group: Placed) -> bool
        ensures { ReadOver self.now.table.now self.now.line self.now.places group result }
    {
        covered(self.table, group) || self.all_settled(group)
    }

    // Whether no setting that shows the group gets by on any item of the line.
    fn all_settled(&self, group: Placed) -> bool
        ensures { AllSettledOver self.now.table.now self.now.line self.now.places group result }
    {
        (0..self.places).all(|place| self.settled(group, place))
    }

    // Whether no setting that shows the group gets by on the line's item at a place.
    #[tactic(auto, using(crate::proofs::Steps::told_filled, crate::proofs::Steps::told_open))]
    fn settled(&self, group: Placed, place: usize) -> bool
        ensures { SettledOver self.now.table.now self.now.line group place result }
    {
        match left_open(self.line.sign(place), group.sign(place)) {
            Gap::Filled => true,
            Gap::Opposite(sign) => covered(self.table, group.with(place, sign)),
            Gap::Open => false,
        }
    }
}

// What a group leaves open of a line's sign for a lever: nothing, where the line has none or the group has it; the opposite
// sign, where the group does not name the lever and the sign has one; else it stays open.
fn left_open(line: Option<Sign>, group: Option<Sign>) -> Gap
    ensures { result ≡ gap_of line group }
{
    match (line, group) {
        (None, _) | (Some(_), Some(Sign::Star)) => Gap::Filled,
        (Some(Sign::Plus), Some(Sign::Plus)) => Gap::Filled,
        (Some(Sign::Minus), Some(Sign::Minus)) => Gap::Filled,
        (Some(Sign::Plus), None) => Gap::Opposite(Sign::Minus),
        (Some(Sign::Minus), None) => Gap::Opposite(Sign::Plus),
        _ => Gap::Open,
    }
}
