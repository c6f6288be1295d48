// Groups as they are spelled: signs, items, and the items of a group in rising plates.
// specs/Items.antt says what covering and combining mean; read it first.
#![tactic(auto)]

pub mod group;
pub mod items;
pub mod methods;
