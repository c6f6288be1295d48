// Hands: a crew that has a number of hands, one for each lever that is between.
ghost use Rattle.std.specs.Prelude.{◌≡◌};
ghost use Rattle.meaning.specs.Crews.{hands};
ghost use Rattle.crews.specs.Meanings.{hands_of};
ghost use Rattle.meaning.proofs.Lawful.{bound_lawful};

use super::crew::Crew;
use super::question::{MOST_MOVING, askable};

// The most hands that count: one for each lever that can be between.
pub const MOST_HANDS: u32 = MOST_MOVING as u32;

// At most `count` levers are between together, and `count` is at most 32.
#[derive(Clone, Copy)]
pub struct Hands {
    count: u32,
}

impl Hands {
    // A crew of so many hands; more than 32 count as 32.
    pub fn new(count: u32) -> Hands
        ensures { hands_of result ≡ hands count }
    {
        Hands {
            count: count.min(MOST_HANDS),
        }
    }
}

impl Crew for Hands {
    ghost admitted = { hands_of };

    ghost lawful = { λ c. bound_lawful c.count };

    fn admits(&self, plates: &[u32]) -> bool {
        askable(plates) && plates.len() <= self.count as usize
    }
}
