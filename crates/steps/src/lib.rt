// The two steps, and the turns of them that find the well-founded model, over a list of rules and the tables of an order.
//
// A matter or a sheet is a plain number, with its bound as a condition where it is an index: a type of its own would be unwrapped there.
#![tactic(auto)]

pub mod bits;
pub mod claims;
pub mod closure;
pub mod model;
pub mod overrulers;
pub mod program;
mod rejection;
pub mod step;
