ghost use Rattle.std.specs.Prelude.{◌≡◌, ℕ, length, slice_index};
ghost use Rattle.rules.specs.Semantics.{Mem};

use rules::table::MOST_SHEETS;

pub mod calls;

// The sheets that claim one literal, and for each sheet the lanes in which it does. The set says which words to visit: a map
// of the few sheets would be searched for each rule.
#[derive(Clone, Copy)]
pub struct Claimants {
    pub sheets: u32,
    pub lanes: [u64; MOST_SHEETS],
    ghost whole: { length lanes ≡ 32 },
    ghost noted: { (j l : ℕ) → Mem l (slice_index lanes j) → Mem j sheets },
}
