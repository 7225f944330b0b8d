// Designs that a supply voltage planner works on, and the drafts that build them.
#![tactic(auto)]

pub mod design;
mod fan_in;
mod indexed;
mod menu;
pub mod parts;
pub mod refusal;
pub mod slots;
pub mod table;
