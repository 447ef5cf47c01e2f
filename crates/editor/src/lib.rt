// Changes to a file in place.
#![tactic(auto)]

pub mod mend;
