// What a group shows, told by the table with no search: a forbidden group the first group of the table that covers it, any
// other the first setting that shows it and rests elsewhere. specs/Showing.antt has the promises; meaning/specs/Shown.antt
// says which setting is the first.
#![tactic(auto)]

ghost use Rattle.showing.specs.Showing.{ShownOver, FoundOver, CompletedOver, SetOver, FirstOver};

use groups::items::Sign;
use placed::Placed;
use telling::covered;

// The complete table, over levers with places below `places`.
#[derive(Clone, Copy)]
pub struct Table<'a> {
    pub groups: &'a [Placed],
    pub places: usize,
}

// What a group shows: never anything, as a group of the table covers it, or a setting, written as a group that names each
// lever. Both are answers and neither is an error, so no Result.
#[derive(Clone, Copy)]
pub enum Shown {
    Never(Placed),
    Thus(Placed),
}

impl Table<'_> {
    // What a group shows: the first group of the table that covers it, or else the first setting.
    pub fn show(&self, group: Placed) -> Shown
        ensures { ShownOver self.now.groups.now self.now.places group result }
    {
        match self.first_cover(group) {
            Some(cover) => Shown::Never(cover),
            None => Shown::Thus(self.complete(group)),
        }
    }

    // The first group of the table that covers a group, if one does.
    fn first_cover(&self, group: Placed) -> Option<Placed>
        ensures { FoundOver self.now.groups.now group result }
    {
        self.groups
            .iter()
            .find(|other| other.covers(group))
            .copied()
    }

    // The first setting for a group that is not forbidden: each lever is set, place by place. A `fold` is no shorter, and its
    // proof would have to find each place in a list.
    fn complete(&self, group: Placed) -> Placed
        ensures { CompletedOver self.now.groups.now self.now.places group result }
    {
        let mut whole = group;
        for place in 0..self.places {
            whole = self.set_at(whole, place);
        }
        whole
    }

    // The group with the lever at a place set, if it is not named yet: normal, or reversed where normal is covered.
    fn set_at(&self, group: Placed, place: usize) -> Placed
        ensures { SetOver self.now.groups.now group place result }
    {
        if group.sign(place).is_some() {
            group
        } else {
            self.normal_first(
                group.with(place, Sign::Plus),
                group.with(place, Sign::Minus),
            )
        }
    }

    // Of a group with a lever normal and with it reversed the first, unless the table covers it.
    fn normal_first(&self, normal: Placed, reversed: Placed) -> Placed
        ensures { FirstOver self.now.groups.now normal reversed result }
    {
        if covered(self.groups, normal) {
            reversed
        } else {
            normal
        }
    }
}
