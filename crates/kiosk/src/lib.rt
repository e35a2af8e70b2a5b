// A kiosk on an open rack: sheets are laid through it, and a session puts a slip of facts on top.
//
// specs/Book.antt says what each call makes of the kiosk's book, and when it refuses.
#![tactic(auto)]

pub mod call;
pub mod fault;
pub mod kiosk;
pub mod slip;
pub mod ticket;
