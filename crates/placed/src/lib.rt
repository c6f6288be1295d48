// Groups to compute with: two sets of levers by their places in a frame, one for each end of a lever.
// specs/Spelling.antt says what such a group spells; covering, equality and combining on the sets are those of the
// spelled items (groups/specs/Items.antt), which specs/Laws.antt states over any frame.
// src/order.rt has the table's order, src/lacking.rt what a group lacks of another.
#![tactic(auto)]

ghost use Rattle.std.specs.Prelude.{◌≡◌, ℕ, ◌&&◌, if◌then◌else◌, Some, None, Decides, nat_eq, nat_lt};
ghost use Rattle.groups.specs.declared.items.Sign.TheVariants.{Star};
ghost use Rattle.groups.specs.Items.{joint};
ghost use Rattle.levers.specs.Sets.{has};
ghost use Rattle.placed.specs.Laws.{CoversOver, SameOver, CombinesOver, OpposesOver};
ghost use Rattle.placed.specs.Signs.{sign_on, without_end, has_end, opposed_signs};

use groups::items::Sign;
use levers::Levers;

pub mod lacking;
pub mod order;

// An end of a lever.
#[derive(Clone, Copy, PartialEq, Eq)]
pub enum End {
    Upper,
    Lower,
}

// A group by the ends of its levers: + has the upper end, - the lower, * both.
#[derive(Clone, Copy, PartialEq, Eq)]
pub struct Placed {
    up: Levers,
    down: Levers,
}

impl Placed {
    // The group of no items.
    pub fn empty() -> Placed
        ensures { (k : ℕ) → sign_on result k ≡ None }
    {
        Placed {
            up: Levers::none(),
            down: Levers::none(),
        }
    }

    // The sign of the lever at a place, if the group names it.
    pub fn sign(self, place: usize) -> Option<Sign>
        ensures { result ≡ sign_on self place }
    {
        match (self.up.has(place), self.down.has(place)) {
            (true, true) => Some(Sign::Star),
            (true, false) => Some(Sign::Plus),
            (false, true) => Some(Sign::Minus),
            (false, false) => None,
        }
    }

    // The group with the lever at a place below 32 given a sign, whatever sign it had.
    #[tactic(auto, using(crate::proofs::Ends::taken_out))]
    pub fn with(self, place: usize, sign: Sign) -> Placed
        ensures { (k : ℕ) → sign_on result k ≡ (if nat_eq k place && nat_lt place 32 then Some sign else sign_on self k) }
    {
        let (up, down) = match sign {
            Sign::Plus => (self.up.with(place), self.down.without(place)),
            Sign::Minus => (self.up.without(place), self.down.with(place)),
            Sign::Star => (self.up.with(place), self.down.with(place)),
        };
        Placed { up, down }
    }

    // Whether this group covers another: over any frame, whether what it spells covers what the other spells.
    #[tactic(auto, using(crate::proofs::Spelled::covers_all, crate::proofs::Spelled::covers_not_up, crate::proofs::Spelled::covers_not_down))]
    pub fn covers(self, other: Placed) -> bool
        ensures { CoversOver self other result }
    {
        self.up.within(other.up) && self.down.within(other.down)
    }

    // Whether two groups are the same: over any frame, whether they spell the same items. `==`, which is derived, promises
    // nothing of the items.
    #[tactic(auto, using(crate::proofs::Spelled::same_told))]
    pub fn same(self, other: Placed) -> bool
        ensures { SameOver self other result }
    {
        self == other
    }

    // The combination on the lever at a place: nothing unless this group has + there and the other -. Over any frame it
    // spells the combination of the two on that lever's plate.
    #[tactic(auto, using(crate::proofs::Spelled::spelled_rises, crate::proofs::Spelled::joined_dropped, crate::proofs::Spelled::joined_elsewhere))]
    pub fn combine(self, other: Placed, place: usize) -> Option<Placed>
        ensures { CombinesOver self other place result }
    {
        if self.opposes(other, place) {
            Some(self.join(other, place))
        } else {
            None
        }
    }

    // Whether this group has + on the lever at a place and the other -.
    #[tactic(auto, using(crate::proofs::Spelled::spelled_sign))]
    fn opposes(self, other: Placed, place: usize) -> bool
        ensures { OpposesOver self other place result }
    {
        matches!(
            (self.sign(place), other.sign(place)),
            (Some(Sign::Plus), Some(Sign::Minus))
        )
    }

    // The items of both groups, but for those of the lever at a place: a lever of both keeps its sign if the signs agree,
    // else it gets *.
    pub fn join(self, other: Placed, place: usize) -> Placed
        ensures { (k : ℕ) → sign_on result k ≡ (if nat_eq k place then None else joint (sign_on self k) (sign_on other k)) }
    {
        Placed {
            up: self.up.union(other.up).without(place),
            down: self.down.union(other.down).without(place),
        }
    }

    // The places at which one of the groups has + and the other -.
    pub fn opposing(self, other: Placed) -> Levers
        ensures { (k : ℕ) → has result k ≡ opposed_signs (sign_on self k) (sign_on other k) }
    {
        let pluses = self.up.minus(self.down);
        let minuses = self.down.minus(self.up);
        let other_pluses = other.up.minus(other.down);
        let other_minuses = other.down.minus(other.up);
        pluses
            .intersection(other_minuses)
            .union(minuses.intersection(other_pluses))
    }

    // The group with an end of the lever at a place taken away.
    pub fn without_end(self, place: usize, end: End) -> Placed
        ensures { (k : ℕ) → sign_on result k ≡ (if nat_eq k place then without_end end (sign_on self k) else sign_on self k) }
    {
        let (up, down) = match end {
            End::Upper => (self.up.without(place), self.down),
            End::Lower => (self.up, self.down.without(place)),
        };
        Placed { up, down }
    }

    // Whether the group has an end of the lever at a place.
    pub fn has_end(self, place: usize, end: End) -> bool
        ensures { result ≡ has_end end (sign_on self place) }
    {
        match end {
            End::Upper => self.up.has(place),
            End::Lower => self.down.has(place),
        }
    }

    // The places at which the group has *.
    pub fn between(self) -> Levers
        ensures { (k : ℕ) → Decides (has result k) (sign_on self k ≡ Some Star) }
    {
        self.up.intersection(self.down)
    }
}
