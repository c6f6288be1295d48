// Who moves the levers: a crew says which levers can be between together, and there are three: hands, split and free.
// meaning/specs/Crews.antt says what a crew is, which laws it keeps, and what the three admit; read it first.
#![tactic(auto)]

pub mod any;
mod counting;
pub mod crew;
pub mod free;
pub mod hands;
pub mod question;
pub mod split;
