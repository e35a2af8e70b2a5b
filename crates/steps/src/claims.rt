ghost use Rattle.std.specs.Prelude.{◌≡◌, ◌<◌, ◌≤◌, slice_index};
ghost use Rattle.steps.specs.Claiming.{claimed, Claimed, Noted, Unclaimed};

use crate::bits::those;
use crate::program::Program;
use rules::matters::MOST_MATTERS;
use rules::rule::{LiteralSet, Rule, Sign};

// A sheet claims a literal in a set if it has a rule with that head, rejected or not, whose body is true there.
// For each matter: the sheets that claim it, and those that claim its negation. Two arrays, since a sign picks one of them.
#[derive(Clone, Copy)]
pub struct Claims {
    yes: [u32; MOST_MATTERS],
    no: [u32; MOST_MATTERS],
}

impl Claims {
    pub fn in_set(program: Program, x: LiteralSet) -> Claims
        ensures { Claimed program.entry.rules.now x result }
    {
        let mut claims = Claims {
            yes: [0; MOST_MATTERS],
            no: [0; MOST_MATTERS],
        };
        for r in program.rules {
            claims.note(*r, x);
        }
        claims
    }

    // The sheets that claim the literal.
    pub fn of(&self, sign: Sign, matter: u8) -> u32
        requires { matter < 16 }
        ensures { result ≡ slice_index (claimed sign self.now) matter }
    {
        match sign {
            Sign::Yes => self.yes[matter as usize],
            Sign::No => self.no[matter as usize],
        }
    }

    // The matters that no sheet claims.
    pub fn defaults(&self, matters: u8) -> u16
        requires { matters ≤ 16 }
        ensures { Unclaimed self.now matters result }
    {
        those(matters, |a| self.of(Sign::Yes, a) == 0) as u16
    }

    // Adds the claim of the rule, if its body is true in `x`.
    fn note(&mut self, r: Rule, x: LiteralSet)
        requires head { r.head < 16 }
        requires sheet { r.sheet < 32 }
        ensures { Noted r x self.old self.new }
    {
        if r.body_true(x) {
            // Each arm writes for itself: of a `&mut` that the arms choose there is no proof yet.
            match r.sign {
                Sign::Yes => self.yes[r.head as usize] |= 1 << r.sheet,
                Sign::No => self.no[r.head as usize] |= 1 << r.sheet,
            }
        }
    }
}
