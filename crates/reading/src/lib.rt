// Reading a group, or a number, from any bytes: from left to right, and the first fault counts.
// specs/Grammar.antt has the grammar and the faults in words of their own; specs/Reading.antt the reading step by step.
#![tactic(auto)]

mod digits;
pub mod reader;
mod rest;
mod tokens;
