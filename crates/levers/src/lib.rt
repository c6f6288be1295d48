// Sets of levers by their places in a frame, 0 to 31. No code of another crate sees the bits. specs/Sets.antt says what is in a set.
#![tactic(auto)]

ghost use Rattle.std.specs.Prelude.{◌≡◌, ℕ, ◌≤◌, true, false, not, ◌&&◌, ◌||◌, Decides, ◌==◌, nat_lt};
ghost use Rattle.levers.specs.Sets.{has, tally, Lowest};

// A set of places from 0 to 31: digit k of the bits stands for place k.
#[derive(Clone, Copy, PartialEq, Eq)]
pub struct Levers {
    bits: u32,
}

impl Levers {
    // The empty set.
    pub fn none() -> Levers
        ensures { (k : ℕ) → has result k ≡ false }
    {
        Levers { bits: 0 }
    }

    // Whether a place is in the set. No place from 32 on is in any.
    #[tactic(auto, using(crate::proofs::Members::in_digit, crate::proofs::Members::in_no))]
    pub fn has(self, place: usize) -> bool
        ensures { result ≡ has self place }
    {
        place < 32 && (self.bits >> place) & 1 == 1
    }

    // The set with a place below 32 taken in.
    #[tactic(auto, using(crate::proofs::Members::in_with))]
    pub fn with(self, place: usize) -> Levers
        ensures { (k : ℕ) → has result k ≡ (has self k || (k == place && nat_lt place 32)) }
    {
        if place < 32 {
            Levers {
                bits: self.bits | 1 << place,
            }
        } else {
            self
        }
    }

    // The set with a place taken out.
    #[tactic(auto, using(crate::proofs::Members::in_without, crate::proofs::Members::out_of_none))]
    pub fn without(self, place: usize) -> Levers
        ensures { (k : ℕ) → has result k ≡ (has self k && not (k == place)) }
    {
        if place < 32 {
            Levers {
                bits: self.bits & !(1 << place),
            }
        } else {
            self
        }
    }

    // What is in one of two sets or in both.
    #[tactic(auto, using(crate::proofs::Members::in_either))]
    pub fn union(self, other: Levers) -> Levers
        ensures { (k : ℕ) → has result k ≡ (has self k || has other k) }
    {
        Levers {
            bits: self.bits | other.bits,
        }
    }

    // What is in both of two sets.
    #[tactic(auto, using(crate::proofs::Members::in_both))]
    pub fn intersection(self, other: Levers) -> Levers
        ensures { (k : ℕ) → has result k ≡ (has self k && has other k) }
    {
        Levers {
            bits: self.bits & other.bits,
        }
    }

    // What is in this set and not in the other.
    #[tactic(auto, using(crate::proofs::Members::in_only_first))]
    pub fn minus(self, other: Levers) -> Levers
        ensures { (k : ℕ) → has result k ≡ (has self k && not (has other k)) }
    {
        Levers {
            bits: self.bits & !other.bits,
        }
    }

    // What is in just one of two sets.
    #[tactic(auto, using(crate::proofs::Members::in_unlike))]
    pub fn difference(self, other: Levers) -> Levers
        ensures { (k : ℕ) → has result k ≡ ((has self k && not (has other k)) || (has other k && not (has self k))) }
    {
        Levers {
            bits: self.bits ^ other.bits,
        }
    }

    // Whether the set is empty.
    #[tactic(auto, using(crate::proofs::Members::all_zero))]
    pub fn is_none(self) -> bool
        ensures { Decides result ((k : ℕ) → has self k ≡ false) }
    {
        self.bits == 0
    }

    // How many places are in the set, counted over any n places that have them all.
    #[tactic(auto, using(crate::proofs::Counts::places_counted))]
    pub fn count(self) -> u32
        ensures { (n : ℕ) → ((k : ℕ) → n ≤ k → has self k ≡ false) → result ≡ tally (has self) 0 n }
    {
        self.bits.count_ones()
    }

    // The lowest place in the set, if there is one.
    #[tactic(auto, using(crate::proofs::Counts::lowest_digit, crate::proofs::Counts::below_lowest))]
    pub fn first(self) -> Option<usize>
        ensures { Lowest (has self) result }
    {
        if self.bits == 0 {
            None
        } else {
            Some(self.bits.trailing_zeros() as usize)
        }
    }

    // Whether each place of this set is in the other.
    #[tactic(auto, using(crate::proofs::Members::is_inside))]
    pub fn within(self, other: Levers) -> bool
        ensures { Decides result ((k : ℕ) → has self k ≡ true → has other k ≡ true) }
    {
        self.bits & other.bits == self.bits
    }
}
