// Racks whose sheets are begun, laid on and withdrawn.
#![tactic(auto)]

pub mod admission;
pub mod fault;
pub mod open_rack;
pub mod pocket;
pub mod sifting;
