// Strings of calls of a kiosk, and the law over them: answers and lists are those of the book that is kept from the arguments alone.
//
// specs/Running.antt has the law, and specs/Comparing.antt what two runs share.
#![tactic(auto)]

pub mod replay;
pub mod run;
pub mod step;
