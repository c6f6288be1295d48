// Free: a crew that can move any levers together.
ghost use Rattle.meaning.specs.Crews.{free};
ghost use Rattle.std.proofs.Common.{rules};

use super::crew::Crew;
use super::question::askable;

// Any levers can be between together.
#[derive(Clone, Copy)]
pub struct Free;

impl Crew for Free {
    ghost admitted = { λ _. free };

    ghost lawful = { Prim.search rules };

    fn admits(&self, plates: &[u32]) -> bool {
        askable(plates)
    }
}
