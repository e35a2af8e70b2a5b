// Rules, tables of rules, and what a list of rules means.
//
// The definitions that every contract rests on are in specs/Semantics.antt, and their theory is in proofs/.
#![tactic(auto)]

pub mod matters;
pub mod record;
pub mod refusal;
pub mod rule;
pub mod sets;
pub mod table;
