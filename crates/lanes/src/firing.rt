ghost use Rattle.std.specs.Prelude.{◌≡◌, length};
ghost use Rattle.lanes.specs.Firing.{Low};

use arrayvec::ArrayVec;
use rules::matters::MOST_MATTERS;
use rules::table::MOST_RULES;

pub mod calls;
pub mod closure;
pub mod entry;

// In these lanes the literal of the head follows from those of the matters that it needs.
#[derive(Clone, Copy, Default)]
pub struct Firing {
    pub head: u8,
    pub needs: u16,
    pub lanes: u64,
}

// One for each rule, and one for each matter's default.
pub const MOST_FIRINGS: usize = MOST_RULES + MOST_MATTERS;

#[derive(Drop)]
pub struct Firings {
    items: ArrayVec<Firing, MOST_FIRINGS>,
    ghost low: { Low items.items },
}

// For each matter the lanes in which its literal is reached.
#[derive(Clone, Copy, PartialEq, Eq)]
pub struct Reach {
    pub words: [u64; MOST_MATTERS],
    ghost whole: { length words ≡ 16 },
}
