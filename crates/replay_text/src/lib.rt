// What the program `replay` reads and prints: the form of stored cases, and of their answers.
#![tactic(auto)]

pub mod form;
pub mod show;
