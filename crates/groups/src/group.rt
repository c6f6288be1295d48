// The type of a spelled group, with what holds of each of its values.
ghost use Rattle.std.specs.Prelude.{◌≡◌, true};
ghost use Rattle.fixed.specs.Rows.{held};
ghost use Rattle.groups.specs.Items.{rising};

use super::items::Item;
use fixed::row::Row;

// At most 32 items in rising plates, each plate once.
#[derive(Clone, Copy)]
pub struct Group {
    pub(super) items: Row<Item, 32>,
    ghost rises: { rising 0 (held items) ≡ true },
}
