// Merging: the groups of the table that no new group covers, and the new groups, in the table's order.
ghost use Rattle.std.specs.Prelude.{ℕ, IfOk};
ghost use Rattle.rows.specs.Rows.{groups_of, AllWithin};
ghost use Rattle.growing.specs.Merging.{KeepsUncovered, MergesTo};

use super::MOST_GROUPS;
use fixed::methods::Full;
use fixed::row::Row;
use placed::Placed;
use telling::covered;

// The groups of the table that no new group covers, and the new groups, in the table's order. Refused where they are more
// than 512.
pub(super) fn merge(
    table: &Row<Placed, MOST_GROUPS>,
    new: &Row<Placed, MOST_GROUPS>,
) -> Result<Row<Placed, MOST_GROUPS>, Full>
    ensures merged { MergesTo (groups_of table.now) (groups_of new.now) result }
    ensures within { (n : ℕ) → AllWithin n (groups_of table.now) → AllWithin n (groups_of new.now) → IfOk result (λ r. AllWithin n (groups_of r)) }
{
    let added = new.all();
    let mut merged = uncovered(table, added);
    for group in added {
        merged.put_in_order(*group)?;
    }
    Ok(merged)
}

// The groups of the table that no new group covers.
fn uncovered(table: &Row<Placed, MOST_GROUPS>, new: &[Placed]) -> Row<Placed, MOST_GROUPS>
    ensures kept { KeepsUncovered (groups_of table.now) new.now (groups_of result) }
    ensures within { (n : ℕ) → AllWithin n (groups_of table.now) → AllWithin n (groups_of result) }
{
    let mut rest = Row::new(Placed::empty());
    for group in table.all() {
        if !covered(new, *group) {
            let _ = rest.push(*group);
        }
    }
    rest
}
