// The plates of a frame: where a plate stands, and groups between their two shapes, spelled and by places.
// specs/Fitted.antt says what is looked for among the plates.
#![tactic(auto)]

pub mod methods;
pub mod plates;
