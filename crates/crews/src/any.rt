// Any crew: one of the three, for a program that learns only as it runs which crew it has.
ghost use Rattle.crews.specs.Meanings.{meant_by};
ghost use Rattle.crews.specs.declared.any.AnyCrew.TheVariants as any;
ghost use Rattle.meaning.proofs.Lawful.{bound_lawful, split_lawful, free_lawful};

use super::crew::Crew;
use super::free::Free;
use super::hands::Hands;
use super::split::Split;

// One of the three crews. It means what that crew means.
#[derive(Clone, Copy)]
pub enum AnyCrew {
    Hands(Hands),
    Split(Split),
    Free(Free),
}

impl Crew for AnyCrew {
    ghost admitted = { meant_by };

    ghost lawful = { elim [ any.Hands crew ↦ bound_lawful crew.count | any.Split crew ↦ split_lawful crew.plate | any.Free crew ↦ free_lawful ] };

    fn admits(&self, plates: &[u32]) -> bool {
        match self {
            AnyCrew::Hands(crew) => crew.admits(plates),
            AnyCrew::Split(crew) => crew.admits(plates),
            AnyCrew::Free(crew) => crew.admits(plates),
        }
    }
}
