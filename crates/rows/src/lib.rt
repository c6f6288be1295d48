// Rows of groups: a table has 512 places, the lines in force and the cut list 128. specs/Rows.antt says what a row of groups
// spells, specs/Ordered.antt that a group put in by the order on groups by places has its place by the table's order.
#![tactic(auto)]

ghost use Rattle.rows.specs.Ordered.{PutsInOrder};

// A group put behind those at the front that are less has its place by the table's order, over any frame that has the levers.
pub fn puts_in_order()
    ensures { PutsInOrder }
{}
