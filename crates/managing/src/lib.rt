// What a crew is asked about a group by its places: whether its levers with * can be between together.
// specs/Standing.antt has the frame that is meant.
#![tactic(auto)]

ghost use Rattle.std.specs.Prelude.{◌≡◌, true};
ghost use Rattle.fixed.specs.Rows.{held};
ghost use Rattle.meaning.specs.Crews.{askable};
ghost use Rattle.meaning.specs.Frames.{starred, stars};
ghost use Rattle.placed.specs.Spelling.{spell};
ghost use Rattle.frames.specs.Fitted.{fitted};

use crews::crew::Crew;
use fixed::row::Row;
use frames::methods::MOST_LEVERS;
use frames::plates::Plates;
use groups::items::Sign;
use manned::Manned;
use placed::Placed;

pub mod manned;

impl<C: Crew> Manned<'_, C> {
    // Whether the crew can manage a group.
    pub fn manages(self, group: Placed) -> bool
        ensures { result ≡ C.Crew.admitted self.entry.crew.now (stars (spell (fitted self.entry.plates.now) group)) }
    {
        let moving = between(self.plates, group);
        self.crew.admits(moving.all())
    }
}

// The plates that a group has with *, in rising order.
fn between(plates: &Plates, group: Placed) -> Row<u32, MOST_LEVERS>
    ensures stars { held result ≡ stars (spell (fitted plates.now) group) }
    ensures askable { askable (held result) ≡ true }
{
    let mut moving = Row::new(0);
    for (place, plate) in plates.all().iter().enumerate() {
        if is_star(group.sign(place)) {
            let _ = moving.push(*plate);
        }
    }
    moving
}

// Whether a sign, if there is one, is *.
fn is_star(sign: Option<Sign>) -> bool
    ensures { result ≡ starred sign }
{
    matches!(sign, Some(Sign::Star))
}
