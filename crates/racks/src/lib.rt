// Racks: piles of sheets of rules; numbered sheets, which rules are laid on; and the rack of a packed file.
#![tactic(auto)]

pub mod file;
pub mod rack;
pub mod sheets;
