// Writes the record of a design.
#![tactic(auto)]

mod entry;
mod page;
mod parts;
pub mod write;
