ghost use Rattle.std.specs.Prelude.{◌≤◌};

use crate::finder::candidates::Candidates;
use std::ops::Range;

pub mod bounds;
mod calls;
mod candidates;

// Gives the outcomes one by one, ascending.
#[derive(Drop)]
pub struct Finder {
    candidates: Candidates,
    // The numbers of the candidates that were not tried yet.
    untried: Range<u32>,
    ghost few: { untried.end ≤ 65536 },
}
