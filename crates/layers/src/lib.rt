// Layers: racks that stand on any other rack.
#![tactic(auto)]

pub mod amended;
pub mod showing;
pub mod withheld;
