// What the plates of a frame answer: where a plate stands, and groups between their two shapes.
ghost use Rattle.std.specs.Prelude.{◌≡◌, true, [], ◌∷◌, ◌++◌, is_ok, if◌then◌else◌, None};
ghost use Rattle.std.specs.Option.{option_map};
ghost use Rattle.groups.specs.Groups.{items_of};
ghost use Rattle.groups.specs.Items.{is_plate, CombinesTo};
ghost use Rattle.groups.specs.Rises.{climbing};
ghost use Rattle.frames.specs.Fitted.{fitted, place_in, fit_refusal, refused_by, PlacesTo, FitsAs};
ghost use Rattle.placed.specs.Spelling.{spell};

use super::plates::Plates;
use faults::{Fault, Place, Refusal};
use fixed::row::Row;
use groups::group::Group;
use groups::items::Item;
use groups::methods::HIGHEST_PLATE;
use placed::Placed;

// The most levers of a frame.
pub const MOST_LEVERS: usize = 32;

impl Plates {
    // No plates.
    pub fn new() -> Plates
        ensures { fitted result ≡ [] }
    {
        Plates {
            plates: Row::new(0),
        }
    }

    // The plates in rising order.
    pub fn all(&self) -> &[u32]
        ensures { result.now ≡ fitted self.now }
    {
        self.plates.all()
    }

    // Fits a plate above all others. Refused: no number of a plate, a plate not above the others, a 33rd lever; then
    // nothing changes.
    pub fn fit(&mut self, plate: u32) -> Result<(), Fault>
        ensures answer { result ≡ refused_by (fit_refusal (fitted self.old) plate) }
        ensures after { fitted self.new ≡ (if is_ok result then fitted self.old ++ (plate ∷ []) else fitted self.old) }
    {
        self.can_follow(plate)?;
        self.push(plate);
        Ok(())
    }

    // The place of a plate, counted from 0, if it is fitted.
    pub fn find(&self, plate: u32) -> Option<usize>
        ensures { result ≡ place_in (fitted self.now) plate }
    {
        place_among(self.all(), plate)
    }

    // Takes a spelled group into the frame. Refused, with the plate: the lowest plate that is not fitted.
    pub fn place(&self, group: &Group) -> Result<Placed, Fault>
        ensures { PlacesTo (fitted self.now) (items_of group.now) result }
    {
        self.place_each(group)
    }

    // Spells a group by the plates of the frame.
    pub fn spell(&self, placed: Placed) -> Group
        ensures { items_of result ≡ spell (fitted self.now) placed }
    {
        self.spell_each(placed)
    }

    // The combination of two groups on a plate: nothing unless the first has the plate with + and the second with -.
    pub fn combine(&self, a: Placed, b: Placed, plate: u32) -> Option<Placed>
        ensures { CombinesTo plate (spell (fitted self.now) a) (spell (fitted self.now) b) (option_map (spell (fitted self.now)) result) }
    {
        self.combine_at(a, b, plate)
    }

    // Whether a plate can follow the others, or why it cannot.
    fn can_follow(&self, plate: u32) -> Result<(), Fault>
        ensures { result ≡ refused_by (fit_refusal (fitted self.now) plate) }
    {
        if plate == 0 || plate > HIGHEST_PLATE {
            Err(Refusal::Number.at(Place::Nowhere))
        } else if !self.is_below(plate) {
            Err(Refusal::NotAbove.at(Place::Nowhere))
        } else if self.all().len() >= MOST_LEVERS {
            Err(Refusal::FrameFull.at(Place::Nowhere))
        } else {
            Ok(())
        }
    }

    // Whether all plates lie below a plate of a lever.
    fn is_below(&self, plate: u32) -> bool
        requires { is_plate plate ≡ true }
        ensures { result ≡ climbing 0 (fitted self.now ++ (plate ∷ [])) }
    {
        match self.all().last() {
            Some(last) => *last < plate,
            None => true,
        }
    }

    // Puts a plate that can follow the others behind them.
    fn push(&mut self, plate: u32)
        requires { fit_refusal (fitted self.old) plate ≡ None }
        ensures { fitted self.new ≡ fitted self.old ++ (plate ∷ []) }
    {
        let _ = self.plates.push(plate);
    }

    // The group of the items by the places of their plates. Apart from `place`, as the two below are from their calls: tried as
    // one function, it has answers, and a wrong call is refused in these first. `ok_or` and `?` for the `match` is no shorter: the
    // refusal would be made for each item.
    fn place_each(&self, group: &Group) -> Result<Placed, Fault>
        ensures { PlacesTo (fitted self.now) (items_of group.now) result }
    {
        let mut placed = Placed::empty();
        for item in group.items() {
            match self.find(item.plate) {
                Some(place) => placed = placed.with(place, item.sign),
                None => return Err(Refusal::NotFitted.at(Place::Plate(item.plate))),
            }
        }
        Ok(placed)
    }

    // The items of the group, each with the plate at its place.
    fn spell_each(&self, placed: Placed) -> Group
        ensures { items_of result ≡ spell (fitted self.now) placed }
    {
        let mut group = Group::new();
        for (place, plate) in self.all().iter().enumerate() {
            if let Some(sign) = placed.sign(place) {
                let plate = *plate;
                let _ = group.insert(Item { plate, sign });
            }
        }
        group
    }

    // The combination on the place of a plate, if the plate is fitted.
    fn combine_at(&self, a: Placed, b: Placed, plate: u32) -> Option<Placed>
        ensures { CombinesTo plate (spell (fitted self.now) a) (spell (fitted self.now) b) (option_map (spell (fitted self.now)) result) }
    {
        let place = self.find(plate)?;
        a.combine(b, place)
    }
}

impl TryFrom<&[u32]> for Plates {
    type Error = Fault;

    ghost try_from_gives = { λ plates r. FitsAs plates.now r };

    // Fits the plates one after the other.
    fn try_from(plates: &[u32]) -> Result<Plates, Fault> {
        let mut frame = Plates::new();
        for plate in plates {
            frame.fit(*plate)?;
        }
        Ok(frame)
    }
}

// The place of a plate, counted from 0, if it is there. Apart from `find`: the chain is proved over a list, and not over what
// `all` gives.
fn place_among(plates: &[u32], plate: u32) -> Option<usize>
    ensures { result ≡ place_in plates.now plate }
{
    plates.iter().position(|fitted| *fitted == plate)
}
