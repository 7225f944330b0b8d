// Reads a netlist record, block by block or into a draft.
#![tactic(auto)]

mod block;
mod cursor;
mod entry;
mod field;
mod fill;
pub mod head;
mod menus;
mod nets;
pub mod read;
pub mod reader;
mod sheet;
