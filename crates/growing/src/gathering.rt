// Gathering the groups that one more line adds to a table: the line, and all combinations, each shortened.
ghost use Rattle.std.specs.Prelude.{◌≡◌, ℕ, ◌<◌, false, true, [], length, slice_index_or};
ghost use Rattle.std.specs.List.{AllByRecursion};
ghost use Rattle.placed.specs.Signs.{Within};
ghost use Rattle.placed.specs.Spelling.{spell};
ghost use Rattle.frames.specs.Fitted.{fitted};
ghost use Rattle.rows.specs.Rows.{groups_of, AllWithin};
ghost use Rattle.growing.specs.Gathered.{asked_of, told_of, met_by, Complete, Gathered, Met, ShortenedFor, Paired, PairedAt};
ghost use Rattle.growing.specs.Gathered.{PairedOne, ClosedBelow, StepsTo};

use super::MOST_GROUPS;
use super::growth::Growth;
use crews::crew::Crew;
use fixed::methods::Full;
use fixed::row::Row;
use placed::Placed;
use telling::{OneMore, covered};

// What holds of the new groups depends on what the crew means, which a type can't keep, so that each method asks for it; and
// for its own group and place to be within the frame and the row.
impl<C: Crew> Growth<'_, C> {
    // Takes in the line and all combinations, each shortened, until there is nothing left to combine. Refused where more than
    // 512 groups come up.
    pub(super) fn gather(&self, new: &mut Row<Placed, MOST_GROUPS>) -> Result<(), Full>
        requires { Gathered (asked_of C.Crew.admitted self.now) (groups_of new.old) }
        ensures { StepsTo C.Crew.admitted self.now new.old new.new result Complete }
    {
        self.consider(new, self.line)?;
        self.combine_all(new)
    }

    // Whether no setting is possible with the line: even the group of no items is forbidden then.
    pub(super) fn leaves_nothing(&self) -> bool
        ensures { result ≡ told_of (asked_of C.Crew.admitted self.now) [] }
    {
        self.tells(Placed::empty())
    }

    // Whether a group is forbidden with the line.
    fn tells(&self, group: Placed) -> bool
        ensures { result ≡ told_of (asked_of C.Crew.admitted self.now) (spell (fitted self.now.frame.plates.now) group) }
    {
        self.one_more().tells(group)
    }

    // What is left of a group that is forbidden with the line, without each end that can go.
    fn shorten(&self, group: Placed) -> Placed
        requires within { Within (length (fitted self.now.frame.plates.now)) group }
        requires told { told_of (asked_of C.Crew.admitted self.now) (spell (fitted self.now.frame.plates.now) group) ≡ true }
        ensures { ShortenedFor (asked_of C.Crew.admitted self.now) group result }
    {
        self.one_more().shorten(group)
    }

    // The table and the line, over the levers of the frame.
    fn one_more(&self) -> OneMore<'_>
        ensures table { result.table.now ≡ groups_of self.now.table.now }
        ensures line { result.line ≡ self.now.line }
        ensures places { result.places ≡ length (fitted self.now.frame.plates.now) }
    {
        OneMore {
            table: self.table.all(),
            line: self.line,
            places: self.frame.plates.all().len(),
        }
    }

    // Combines each new group, also those that come up meanwhile, with those of the table and the new ones before it.
    fn combine_all(&self, new: &mut Row<Placed, MOST_GROUPS>) -> Result<(), Full>
        requires { Gathered (asked_of C.Crew.admitted self.now) (groups_of new.old) }
        ensures { StepsTo C.Crew.admitted self.now new.old new.new result (λ a news. ClosedBelow a (length news) news) }
    {
        let mut at = 0;
        // a `while`, since the new groups grow meanwhile, and no iterator can go over them
        while at < new.all().len() {
            self.combine_one(new, at)?;
            at += 1;
        }
        Ok(())
    }

    // Combines the new group at a place with each group of the table and each new group before it.
    fn combine_one(&self, new: &mut Row<Placed, MOST_GROUPS>, at: usize) -> Result<(), Full>
        requires gathered { Gathered (asked_of C.Crew.admitted self.now) (groups_of new.old) }
        requires there { at < length (groups_of new.old) }
        ensures { StepsTo C.Crew.admitted self.now new.old new.new result (λ a. PairedOne a at) }
    {
        self.pair_with_table(new, at)?;
        self.pair_with_new(new, at)
    }

    // Combines the new group at a place with each group of the table.
    fn pair_with_table(&self, new: &mut Row<Placed, MOST_GROUPS>, at: usize) -> Result<(), Full>
        requires gathered { Gathered (asked_of C.Crew.admitted self.now) (groups_of new.old) }
        requires there { at < length (groups_of new.old) }
        ensures { StepsTo C.Crew.admitted self.now new.old new.new result (λ a news. ((d : Placed) → AllByRecursion (Paired a news (slice_index_or news at d)) a.table)) }
    {
        let group = new.all()[at];
        for other in self.table.all() {
            self.pair(new, group, *other)?;
        }
        Ok(())
    }

    // Combines the new group at a place with each new group before it.
    fn pair_with_new(&self, new: &mut Row<Placed, MOST_GROUPS>, at: usize) -> Result<(), Full>
        requires gathered { Gathered (asked_of C.Crew.admitted self.now) (groups_of new.old) }
        requires there { at < length (groups_of new.old) }
        ensures { StepsTo C.Crew.admitted self.now new.old new.new result (λ a news. ((d : Placed) (j : ℕ) → j < at → Paired a news (slice_index_or news at d) (slice_index_or news j d))) }
    {
        let group = new.all()[at];
        // the new groups grow meanwhile, so that no iterator goes over them
        for place in 0..at {
            let other = new.all()[place];
            self.pair(new, group, other)?;
        }
        Ok(())
    }

    // Takes in the combinations of two groups on all levers on which they oppose each other.
    fn pair(
        &self,
        new: &mut Row<Placed, MOST_GROUPS>,
        group: Placed,
        other: Placed,
    ) -> Result<(), Full>
        requires gathered { Gathered (asked_of C.Crew.admitted self.now) (groups_of new.old) }
        requires group { Within (length (fitted self.now.frame.plates.now)) group }
        requires other { Within (length (fitted self.now.frame.plates.now)) other }
        ensures { StepsTo C.Crew.admitted self.now new.old new.new result (λ a news. Paired a news group other) }
    {
        if group.opposing(other).is_none() {
            return Ok(());
        }
        for place in 0..self.frame.plates.all().len() {
            self.pair_at(new, group, other, place)?;
        }
        Ok(())
    }

    // Takes in the combination of two groups on the lever at a place, if they oppose each other there.
    fn pair_at(
        &self,
        new: &mut Row<Placed, MOST_GROUPS>,
        group: Placed,
        other: Placed,
        place: usize,
    ) -> Result<(), Full>
        requires gathered { Gathered (asked_of C.Crew.admitted self.now) (groups_of new.old) }
        requires group { Within (length (fitted self.now.frame.plates.now)) group }
        requires other { Within (length (fitted self.now.frame.plates.now)) other }
        requires place { place < length (fitted self.now.frame.plates.now) }
        ensures { StepsTo C.Crew.admitted self.now new.old new.new result (λ a news. PairedAt a news group other place) }
    {
        if !group.opposing(other).has(place) {
            return Ok(());
        }
        self.consider(new, group.join(other, place))
    }

    // Takes in a group that is not covered yet, shortened, if the crew can manage it. Refused where no place is left for it.
    fn consider(&self, new: &mut Row<Placed, MOST_GROUPS>, group: Placed) -> Result<(), Full>
        requires gathered { Gathered (asked_of C.Crew.admitted self.now) (groups_of new.old) }
        requires within { Within (length (fitted self.now.frame.plates.now)) group }
        ensures { StepsTo C.Crew.admitted self.now new.old new.new result (λ a news. Met a news (spell a.plates group)) }
    {
        if self.is_met(new.all(), group) {
            return Ok(());
        }
        self.take_in(new, group)
    }

    // Whether a group is covered already, or the crew can't manage it.
    fn is_met(&self, new: &[Placed], group: Placed) -> bool
        requires { AllWithin (length (fitted self.now.frame.plates.now)) new.now }
        ensures { result ≡ met_by (asked_of C.Crew.admitted self.now) new.now (spell (fitted self.now.frame.plates.now) group) }
    {
        covered(self.table.all(), group) || covered(new, group) || !self.frame.manages(group)
    }

    // Takes in what is left of a group that is not met yet, if the table tells of it.
    fn take_in(&self, new: &mut Row<Placed, MOST_GROUPS>, group: Placed) -> Result<(), Full>
        requires gathered { Gathered (asked_of C.Crew.admitted self.now) (groups_of new.old) }
        requires within { Within (length (fitted self.now.frame.plates.now)) group }
        requires unmet { met_by (asked_of C.Crew.admitted self.now) (groups_of new.old) (spell (fitted self.now.frame.plates.now) group) ≡ false }
        ensures { StepsTo C.Crew.admitted self.now new.old new.new result (λ a news. Met a news (spell a.plates group)) }
    {
        if !self.tells(group) {
            return Ok(());
        }
        new.push(self.shorten(group))
    }
}
