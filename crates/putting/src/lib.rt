// The parts of a message put out through a pen: rows, a selection, the systems of a mask.
#![tactic(auto)]

pub mod column;
pub mod marks;
pub mod mask;
pub mod row;
pub mod size;
pub mod values;
