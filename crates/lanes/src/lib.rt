// Sixty-four candidates at a time: bit l of a word is about the candidate of lane l, so a word is a set of lanes.
// A matter or a sheet is a plain number, with its bound as a condition where it is an index: a type of its own would be unwrapped there.
//
// There are no tests: what a trial answers is proved against the definition of outcomes, and each call of one in a test would
// need a proof of `Sound` by hand.
#![tactic(auto)]

pub mod block;
mod claimants;
mod contest;
pub mod docket;
mod firing;
mod members;
pub mod trial;
mod words;
