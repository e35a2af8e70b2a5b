ghost use Rattle.std.specs.Prelude.{◌≡◌, length};

use rules::matters::MOST_MATTERS;
use rules::rule::LiteralSet;

mod calls;
mod make;
mod side;

// The literal sets of sixty-four lanes, which differ in the varying matters alone.
#[derive(Clone, Copy)]
pub struct Block {
    // For each matter: the lanes that hold it, and those that hold its negation. Two arrays, and not one of pairs, since a
    // body meets the words of one sign.
    pub yes: [u64; MOST_MATTERS],
    pub no: [u64; MOST_MATTERS],
    // The literals that some lane may hold.
    pub some: LiteralSet,
    pub varying: u16,
    ghost whole: { length yes ≡ 16 },
    ghost complete: { length no ≡ 16 },
}
