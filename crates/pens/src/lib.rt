// A pen over lent bytes, and the numbers of a head that it gathers.
#![tactic(auto)]

pub mod number;
pub mod pen;
