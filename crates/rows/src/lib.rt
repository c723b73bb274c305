// One row of a body: the shape of its values, and the row written into a lent part.
#![tactic(auto)]

pub mod row;
pub mod shape;
pub mod shapes;
