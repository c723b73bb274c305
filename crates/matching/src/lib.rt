// Whether rows fit their lines, told before any bit is set.
#![tactic(auto)]

pub mod fits;
