ghost use Rattle.std.specs.Prelude.{◌≡◌, ◌≤◌, length};

use crate::rule::Rule;

mod calls;
mod filtered;

// The most sheets, and the most rules, that a rack may have.
pub const MOST_SHEETS: usize = 32;

pub const MOST_RULES: usize = 256;

// A list of at most `MOST_RULES` rules that needs no heap, so that no call can fail for want of memory. It is no `ArrayVec`: a table is
// `Copy`, as the racks that hold one are, and the `clone` of an `ArrayVec` may fail.
#[derive(Clone, Copy)]
pub struct Table {
    rules: [Rule; MOST_RULES],
    len: usize,
    ghost whole: { length rules ≡ 256 },
    ghost within: { len ≤ 256 },
}
