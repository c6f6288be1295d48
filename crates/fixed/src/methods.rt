// What a row answers, and how it takes one more item.
ghost use Rattle.std.specs.Prelude.{◌≡◌, ◌+◌, ◌<◌, ◌≤◌, [], ◌∷◌, ◌++◌, length, take, drop, is_ok, if◌then◌else◌, nat_lt};
ghost use Rattle.fixed.specs.Rows.{held, less_in_front, behind_less};

use super::row::Row;

// All places are taken.
#[derive(Clone, Copy)]
pub struct Full;

impl<T: Copy, const N: usize> Row<T, N> {
    // A row of no items, whose places have a value that stands for none.
    pub fn new(blank: T) -> Row<T, N>
        ensures { held result ≡ [] }
    {
        Row {
            places: [blank; N],
            count: 0,
        }
    }

    // The items, in their order.
    pub fn all(&self) -> &[T]
        ensures { result.now ≡ held self.now }
    {
        let places = &self.places[..];
        &places[0..self.count]
    }

    // Takes one more item, behind the others. Refused, and nothing taken, where all places are.
    pub fn push(&mut self, item: T) -> Result<(), Full>
        ensures room { is_ok result ≡ nat_lt (length (held self.old)) N }
        ensures after { held self.new ≡ (if is_ok result then held self.old ++ (item ∷ []) else held self.old) }
    {
        let at = self.count;
        if at >= N {
            return Err(Full);
        }
        self.places[at] = item;
        self.count = at + 1;
        Ok(())
    }

    // Takes one more item, behind the first `at`, or behind all where they are fewer. Refused, and nothing taken, where all
    // places are.
    pub fn insert(&mut self, at: usize, item: T) -> Result<(), Full>
        ensures room { is_ok result ≡ nat_lt (length (held self.old)) N }
        ensures after { held self.new ≡ (if is_ok result then take at (held self.old) ++ (item ∷ drop at (held self.old)) else held self.old) }
    {
        let count = self.count;
        if count >= N {
            return Err(Full);
        }
        put_in(&mut self.places, count, at, item);
        self.count = count + 1;
        Ok(())
    }
}

impl<T: Copy + Ord, const N: usize> Row<T, N> {
    // Takes one more item, behind those at the front that are less. Refused, and nothing taken, where all places are.
    pub fn put_in_order(&mut self, item: T) -> Result<(), Full>
        ensures room { is_ok result ≡ nat_lt (length (held self.old)) N }
        ensures after { held self.new ≡ (if is_ok result then behind_less T.cmp item (held self.old) else held self.old) }
    {
        if self.count >= N {
            return Err(Full);
        }
        let at = less_in_front(self.all(), item);
        self.insert(at, item)
    }
}

// How many items at the front are less than an item.
fn less_in_front<T: Copy + Ord>(items: &[T], item: T) -> usize
    ensures count { result ≡ less_in_front T.cmp item items.now }
    ensures within { result ≤ length items.now }
{
    items
        .iter()
        .take_while(|other| (*other).cmp(&item).is_lt())
        .count()
}

// Puts an item behind the first `at` of the first `count`, or behind all of these, and moves those behind it up by one.
fn put_in<T: Copy>(places: &mut [T], count: usize, at: usize, item: T)
    requires { count < length places.old }
    ensures put { take (count + 1) places.new ≡ take at (take count places.old) ++ (item ∷ drop at (take count places.old)) }
    ensures long { length places.new ≡ length places.old }
{
    let at = at.min(count);
    places[count] = item;
    places[at..count + 1].rotate_right(1);
}
