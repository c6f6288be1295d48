// Reading plates, a crew and lines from what C passes.
use crews::any::AnyCrew;
use crews::free::Free;
use crews::hands::Hands;
use crews::split::Split;
use frames::methods::MOST_LEVERS;
use frames::plates::Plates;
use groups::group::Group;
use groups::items::{Item, Sign};

// The plates from 1 up to a number, at most 32 of them.
pub(super) fn plates_up_to(levers: u32) -> Plates {
    let mut plates = Plates::new();
    for plate in 1..=levers.min(MOST_LEVERS as u32) {
        let _ = plates.fit(plate);
    }
    plates
}

// The crew of a kind, 0 free, 1 hands, else split, and of its number: C passes a kind as a number.
pub(super) fn crew_of(kind: u32, number: u32) -> AnyCrew {
    match kind {
        0 => AnyCrew::Free(Free),
        1 => AnyCrew::Hands(Hands::new(number)),
        _ => AnyCrew::Split(Split::new(number)),
    }
}

// The line of some bytes, two for each item. A byte that is left over is no item.
pub(super) fn line_of(bytes: &[u8]) -> Group {
    let mut group = Group::new();
    let (items, _) = bytes.as_chunks::<2>();
    for [plate, sign] in items {
        let plate = u32::from(*plate);
        let sign = sign_of(*sign);
        let _ = group.insert(Item { plate, sign });
    }
    group
}

// The sign of a byte; * for any other than + and -, so it is no inverse of the byte that a sign is written as.
fn sign_of(byte: u8) -> Sign {
    match byte {
        b'+' => Sign::Plus,
        b'-' => Sign::Minus,
        _ => Sign::Star,
    }
}
