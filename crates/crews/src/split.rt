// Split: a crew of two, one for the levers below a plate and one for those from it upwards.
ghost use Rattle.std.specs.Prelude.{◌≡◌};
ghost use Rattle.meaning.specs.Crews.{split};
ghost use Rattle.crews.specs.Meanings.{split_of};
ghost use Rattle.meaning.proofs.Lawful.{split_lawful};

use super::counting::parted;
use super::crew::Crew;
use super::question::askable;

// At most one lever below the plate is between, and at most one from the plate upwards.
#[derive(Clone, Copy)]
pub struct Split {
    plate: u32,
}

impl Split {
    // The crew that parts the levers at a plate.
    pub fn new(plate: u32) -> Split
        ensures { split_of result ≡ split plate }
    {
        Split { plate }
    }
}

impl Crew for Split {
    ghost admitted = { split_of };

    ghost lawful = { λ c. split_lawful c.plate };

    fn admits(&self, plates: &[u32]) -> bool {
        if !askable(plates) {
            return false;
        }
        let sides = parted(plates, self.plate);
        sides.below <= 1 && sides.upwards <= 1
    }
}
