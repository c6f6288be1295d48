// What a crew can be asked about.
ghost use Rattle.std.specs.Prelude.{◌≡◌, ◌&&◌, nat_le, nat_lt, slice_index_or};
ghost use Rattle.groups.specs.Rises.{climbing};
ghost use Rattle.meaning.specs.Crews.{askable};

use groups::methods::HIGHEST_PLATE;

// The most levers that can be between together: all of a frame.
pub const MOST_MOVING: usize = 32;

// Whether a crew can be asked about the plates: at most 32 plates of levers, in rising order.
pub fn askable(plates: &[u32]) -> bool
    ensures { result ≡ askable plates.now }
{
    plates.len() <= MOST_MOVING && climbs(plates)
}

// Whether the plates rise, from 1 on, and none passes the highest.
fn climbs(plates: &[u32]) -> bool
    ensures { result ≡ climbing 0 plates.now }
{
    first_fits(plates) && plates.is_sorted_by(|low, high| low < high && *high <= HIGHEST_PLATE)
}

// Whether the first plate, if there is one, is a plate of a lever.
fn first_fits(plates: &[u32]) -> bool
    ensures { result ≡ (nat_lt 0 (slice_index_or plates.now 0 1) && nat_le (slice_index_or plates.now 0 1) 2097151) }
{
    match plates.first() {
        Some(first) => *first > 0 && *first <= HIGHEST_PLATE,
        None => true,
    }
}
