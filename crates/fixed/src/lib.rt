// Rows with a fixed number of places, of which the first some are taken: no memory but their own is ever needed.
// specs/Rows.antt says what a row holds.
#![tactic(auto)]

pub mod methods;
pub mod row;
