// How many plates lie on each side of a plate.
ghost use Rattle.std.specs.Prelude.{◌≡◌, length, filter, nat_le, nat_lt};

// How many plates lie below a plate, and how many from it upwards.
#[derive(Clone, Copy)]
pub(super) struct Sides {
    pub(super) below: usize,
    pub(super) upwards: usize,
}

// The plates, parted at a plate.
pub(super) fn parted(plates: &[u32], plate: u32) -> Sides
    ensures below { result.below ≡ length (filter (λ p. nat_lt p plate) plates.now) }
    ensures upwards { result.upwards ≡ length (filter (λ p. nat_le plate p) plates.now) }
{
    let below = below(plates, plate);
    Sides {
        below,
        upwards: plates.len() - below,
    }
}

// How many of the plates lie below a plate.
fn below(plates: &[u32], plate: u32) -> usize
    ensures { result ≡ length (filter (λ p. nat_lt p plate) plates.now) }
{
    plates.iter().filter(|p| **p < plate).count()
}
