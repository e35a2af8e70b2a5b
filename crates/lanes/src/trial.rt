use crate::docket::Docket;
use rules::sets::SheetSets;

mod contest;
mod founded;
pub mod outcomes;
mod sweep;

// What candidates are tried against: rules, the number of matters, and for each sheet those that overrule it.
// The caller fills the public fields, so what they owe to a list of rules is asked by `Sound`, and is no invariant.
#[derive(Clone, Copy)]
pub struct Trial {
    pub docket: Docket,
    pub matters: u8,
    pub overrulers: SheetSets,
}
