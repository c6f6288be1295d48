// What a spelled group answers, and how it takes one more item.
ghost use Rattle.std.specs.Prelude.{◌≡◌, ◌+◌, ◌<◌, ◌≤◌, true, [], ◌∷◌, ◌++◌, length, take, drop, if◌then◌else◌};
ghost use Rattle.groups.specs.declared.items.Item.{Item};
ghost use Rattle.groups.specs.Items.{rising, sign_at, insert, place_of};
ghost use Rattle.groups.specs.Groups.{items_of, takes};

use super::group::Group;
use super::items::{Item, Sign};
use fixed::row::Row;

// The highest plate that a lever can have.
pub const HIGHEST_PLATE: u32 = 2_097_151;

// The most items of a group: one for each lever of a frame.
pub const MOST_ITEMS: usize = 32;

impl Group {
    // The group of no items.
    pub fn new() -> Group
        ensures { items_of result ≡ [] }
    {
        let blank = Item {
            plate: 0,
            sign: Sign::Plus,
        };
        Group {
            items: Row::new(blank),
        }
    }

    // The items in rising plates.
    pub fn items(&self) -> &[Item]
        ensures { result.now ≡ items_of self.now }
    {
        self.items.all()
    }

    // The sign that the group gives a plate, if it names it.
    pub fn sign_of(&self, plate: u32) -> Option<Sign>
        ensures { result ≡ sign_at (items_of self.now) plate }
    {
        sign_among(self.items(), plate)
    }

    // Takes one more item, to its place by rising plates. False, and nothing taken, where the plate is no lever's or is
    // named already, or there are 32 items. A bool, as the `insert` of a set of the library has it: no caller asks which.
    pub fn insert(&mut self, item: Item) -> bool
        ensures taken { result ≡ takes (items_of self.old) item.plate }
        ensures after { items_of self.new ≡ (if result then insert item (items_of self.old) else items_of self.old) }
    {
        let taken = self.takes(item.plate);
        if taken {
            self.put(item);
        }
        taken
    }

    // Whether the group can take an item of a plate.
    fn takes(&self, plate: u32) -> bool
        ensures { result ≡ takes (items_of self.now) plate }
    {
        plate > 0
            && plate <= HIGHEST_PLATE
            && self.sign_of(plate).is_none()
            && self.items().len() < MOST_ITEMS
    }

    // Puts an item that the group can take into its place.
    fn put(&mut self, item: Item)
        requires { takes (items_of self.old) item.plate ≡ true }
        ensures { items_of self.new ≡ insert item (items_of self.old) }
    {
        let at = place_of(self.items(), item.plate);
        let _ = self.items.insert(at, item);
    }
}

// The sign that rising items give a plate, if they name it: the first that is not below it tells. Apart from `sign_of`, whose edit
// would be refused in the answers here first.
fn sign_among(items: &[Item], plate: u32) -> Option<Sign>
    requires { rising 0 items.now ≡ true }
    ensures { result ≡ sign_at items.now plate }
{
    match items.get(place_of(items, plate)) {
        Some(item) if item.plate == plate => Some(item.sign),
        Some(_) | None => None,
    }
}

// How many of the items stand before the place of a plate.
fn place_of(items: &[Item], plate: u32) -> usize
    ensures { result ≡ place_of plate items.now }
{
    items.iter().take_while(|item| item.plate < plate).count()
}
