// Bit fields of a byte string: most significant bit first, places counted from 0.
#![tactic(auto)]

pub mod part;
pub mod read;
pub mod rest;
pub mod signed;
pub mod window;
pub mod write;
