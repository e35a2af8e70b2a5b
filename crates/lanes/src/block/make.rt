ghost use Rattle.std.specs.Prelude.{◌≡◌, ℕ, ◌+◌, ◌%◌, ◌^◌, ◌<◌, ◌≤◌, replicate, bit_or};
ghost use Rattle.rules.specs.Semantics.{Mem, settled};
ghost use Rattle.lanes.specs.Blocks.{Has};
ghost use Rattle.steps.specs.Subsets.{rank as rank_of, part};
ghost use Rattle.lanes.specs.Sides.{Takes, PutAs};

use crate::block::Block;
use crate::block::side::{Side, side_of_bit};
use rules::matters::MOST_MATTERS;
use rules::sets::has;

impl Block {
    // Sixty-four candidates: the yes matters, each time with the part of the undecided ones that has the next number.
    pub fn of(matters: u8, yes: u16, undecided: u16, first: u32) -> Block
        requires matters { matters ≤ 16 }
        requires first { first % 64 ≡ 0 }
        requires apart { (a : ℕ) → Mem a yes → Mem a undecided → ⊥ }
        requires small { (l : ℕ) → bit_or yes (part 16 undecided (first + l)) < 2 ^ matters }
        ensures { Has (λ l. settled matters (bit_or yes (part 16 undecided (first + l)))) result }
    {
        let mut block = Block::empty();
        for a in 0..matters {
            block.put(a, side_of(yes, undecided, first, a));
        }
        block
    }

    fn empty() -> Block
        ensures yes { result.yes ≡ replicate 16 0 }
        ensures no { result.no ≡ replicate 16 0 }
        ensures some { result.some ≡ (0, 0) }
        ensures varying { result.varying ≡ 0 }
    {
        Block {
            yes: [0; MOST_MATTERS],
            no: [0; MOST_MATTERS],
            some: (0, 0),
            varying: 0,
        }
    }

    // Puts a matter on its side.
    fn put(&mut self, a: u8, side: Side)
        requires { a < 16 }
        ensures { PutAs a side self.old self.new }
    {
        match side {
            Side::In => {
                self.yes[a as usize] = u64::MAX;
                self.some.0 |= 1 << a;
            }
            Side::Out => {
                self.no[a as usize] = u64::MAX;
                self.some.1 |= 1 << a;
            }
            Side::Varying(lanes) => {
                self.yes[a as usize] = lanes;
                self.no[a as usize] = !lanes;
                self.some.0 |= 1 << a;
                self.some.1 |= 1 << a;
                self.varying |= 1 << a;
            }
        }
    }
}

// Which of the candidates have the matter.
fn side_of(yes: u16, undecided: u16, first: u32, a: u8) -> Side
    requires matter { a < 16 }
    requires first { first % 64 ≡ 0 }
    requires apart { Mem a yes → Mem a undecided → ⊥ }
    ensures { Takes result (λ l. Mem a (bit_or yes (part 16 undecided (first + l)))) }
{
    if has(undecided.into(), a) {
        side_of_bit(rank(undecided, a), first)
    } else if has(yes.into(), a) {
        Side::In
    } else {
        Side::Out
    }
}

// How many matters of the set are below this one.
fn rank(set: u16, a: u8) -> u8
    requires { a < 16 }
    ensures { result ≡ rank_of set a }
{
    (set & ((1 << a) - 1)).count_ones() as u8
}
