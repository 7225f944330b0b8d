// Timing and power of an assignment.
#![tactic(auto)]

pub mod assess;
pub mod assignment;
pub mod delays;
pub mod listing;
pub mod shifter;
pub mod walk;
pub mod way;
