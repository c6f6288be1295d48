// The type of a frame's plates, with what holds of each of its values.
ghost use Rattle.std.specs.Prelude.{◌≡◌, true};
ghost use Rattle.fixed.specs.Rows.{held};
ghost use Rattle.groups.specs.Rises.{climbing};

use fixed::row::Row;

// At most 32 plates in rising order.
#[derive(Clone, Copy)]
pub struct Plates {
    pub(super) plates: Row<u32, 32>,
    ghost rises: { climbing 0 (held plates) ≡ true },
}
