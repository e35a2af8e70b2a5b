// What the kiosk prints: the report on a rack, and the answer to a packed file.
#![tactic(auto)]

pub mod listing;
mod page;
pub mod report;
mod text;
