// Lines of text: what is put together in a place of its own before it is written into the caller's buffer, so that a refusal
// writes nothing. specs/Texts.antt says what is written, and what a call leaves in the buffer.
#![tactic(auto)]

pub mod line;
pub mod texts;
