ghost use Rattle.std.specs.Prelude.{◌≡◌, ◌≤◌, length};

use rules::table::MOST_SHEETS;

mod calls;

// A byte of grade for each of the first sheets, at most one for each sheet that a rack may have.
// No `ArrayVec`, which is not `Copy` as the orders are.
#[derive(Clone, Copy)]
pub struct Grades {
    bytes: [u8; MOST_SHEETS],
    len: usize,
    ghost whole: { length bytes ≡ 32 },
    ghost within: { len ≤ 32 },
}
