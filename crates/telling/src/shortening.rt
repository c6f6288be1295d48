// Dropping ends of a group that is forbidden with one more line, as long as the rest is forbidden too.
ghost use Rattle.std.specs.Prelude.{◌<◌};
ghost use Rattle.telling.specs.Shortened.{WhereTold, EndTried, PlaceTried, Shortened};

use super::OneMore;
use placed::{End, Placed};

impl OneMore<'_> {
    // The group without each end that can go, one after the other: what is left covers the group, is forbidden with the line
    // too, and no end of it can go. A `fold` is no shorter, and its proof would have to find each place in a list.
    #[tactic(auto, using(crate::proofs::Drops::upto_none))]
    pub fn shorten(&self, group: Placed) -> Placed
        ensures { WhereTold self.now.table.now self.now.line self.now.places group (Shortened group result) }
    {
        let mut short = group;
        for place in 0..self.places {
            short = self.drop_at(short, place);
        }
        short
    }

    // Drops the ends that can go of the lever at a place.
    fn drop_at(&self, group: Placed, place: usize) -> Placed
        ensures { place < self.now.places → WhereTold self.now.table.now self.now.line self.now.places group (PlaceTried place group result) }
    {
        let short = self.drop_end(group, place, End::Upper);
        self.drop_end(short, place, End::Lower)
    }

    // Drops an end of the lever at a place, if it can go.
    fn drop_end(&self, group: Placed, place: usize, end: End) -> Placed
        ensures { place < self.now.places → WhereTold self.now.table.now self.now.line self.now.places group (EndTried end place group result) }
    {
        let less = group.without_end(place, end);
        if group.has_end(place, end) && self.tells(less) {
            less
        } else {
            group
        }
    }
}
