// What can be read of a file that passes: its header, its records a step at a time, one point.
#![tactic(auto)]

pub mod cursor;
pub mod header;
pub mod point;
