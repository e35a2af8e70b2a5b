ghost use Rattle.std.specs.Prelude.{Decides};
ghost use Rattle.rules.specs.Semantics.{Mem};

use crate::table::MOST_SHEETS;

// For each sheet a set of sheets.
pub type SheetSets = [u32; MOST_SHEETS];

// Whether a set of matters, sheets or lanes has a member: bit `i` of the set is set for the member `i`.
// A number past the last bit is in no set.
pub fn has(set: u64, member: u8) -> bool
    ensures { Decides result (Mem member set) }
{
    member < 64 && (set >> member) % 2 == 1
}
