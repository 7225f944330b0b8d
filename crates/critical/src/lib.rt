// The critical path of an assignment.
#![tactic(auto)]

pub mod path;
