// What a group names, and what it lacks of another group.
ghost use Rattle.std.specs.Prelude.{◌≡◌, ℕ, is_some};
ghost use Rattle.levers.specs.Sets.{has};
ghost use Rattle.placed.specs.Lacking.{lacks};
ghost use Rattle.placed.specs.Signs.{sign_on};

use super::Placed;
use levers::Levers;

impl Placed {
    // The places of the levers that the group names.
    #[tactic(auto, using(crate::proofs::Missing::named_ends))]
    pub fn named(self) -> Levers
        ensures { (k : ℕ) → has result k ≡ is_some (sign_on self k) }
    {
        self.up.union(self.down)
    }

    // The places at which the other group has an end that this one lacks.
    #[tactic(auto, using(crate::proofs::Missing::lacking_ends))]
    pub fn lacking(self, other: Placed) -> Levers
        ensures { (k : ℕ) → has result k ≡ lacks (sign_on self k) (sign_on other k) }
    {
        other.up.minus(self.up).union(other.down.minus(self.down))
    }
}
