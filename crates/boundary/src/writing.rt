// Writing groups to what C passes.
use frames::methods::MOST_LEVERS;
use placed::{End, Placed};

// The bytes of one half of a group: its upper or its lower ends.
const HALF_BYTES: usize = 4;

// Writes each group as its upper and its lower ends, as many halves as fit.
pub(super) fn write_groups(groups: &[Placed], out: &mut [u8]) {
    let halves = groups.iter().flat_map(|group| halves_of(*group));
    for (half, bytes) in halves.zip(out.chunks_exact_mut(HALF_BYTES)) {
        bytes.copy_from_slice(&half.to_le_bytes());
    }
}

// The upper and the lower ends of a group.
fn halves_of(group: Placed) -> [u32; 2] {
    [number_of(group, End::Upper), number_of(group, End::Lower)]
}

// The number whose digit k is 1 where the group has an end of the lever at place k.
fn number_of(group: Placed, end: End) -> u32 {
    (0..MOST_LEVERS).fold(0, |number, place| {
        number | u32::from(group.has_end(place, end)) << place
    })
}
