// A counter's day as a script: each line is a call of a kiosk, and what it did is said in words.
#![tactic(auto)]

pub mod day;
pub mod line;
mod play;
mod words;
