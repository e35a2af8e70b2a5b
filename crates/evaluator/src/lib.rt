// What the sheets of a rack allow: one text for every rack and every order.
//
// Each call reads the rack once into a table, asks the order once for each two sheets, and works on that.
#![tactic(auto)]

pub mod answer;
mod finder;
pub mod matter;
pub mod model;
pub mod outcomes;
pub mod two;
