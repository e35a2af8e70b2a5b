// Orders of sheets: which sheet overrules which.
#![tactic(auto)]

pub mod fault;
pub mod graded;
pub mod graded_position;
pub mod grades;
pub mod order;
pub mod position;
