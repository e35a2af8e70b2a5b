ghost use Rattle.std.specs.Prelude.{◌≡◌, [], ◌∷◌, ◌++◌, length, if◌then◌else◌, nat_lt};
ghost use Rattle.std.specs.List.{slice_get};
ghost use Rattle.rules.specs.Held.{held};

use crate::rule::Rule;
use crate::table::{MOST_RULES, Table};

impl Table {
    pub fn new() -> Table
        ensures { held result ≡ [] }
    {
        Table {
            rules: [Rule::default(); MOST_RULES],
            len: 0,
        }
    }

    pub fn as_slice(&self) -> &[Rule]
        ensures { result.now ≡ held self.now }
    {
        &self.rules[0..self.len]
    }

    pub fn len(&self) -> usize
        ensures { result ≡ length (held self.now) }
    {
        self.as_slice().len()
    }

    // The rule at a place, or none past the end.
    pub fn rule(&self, place: u16) -> Option<Rule>
        ensures { result ≡ slice_get (held self.now) place }
    {
        self.as_slice().get(usize::from(place)).copied()
    }

    // Adds the rule at the end and answers true; a full table stays as it is. Like a set's `insert`, it answers whether it did, and no
    // error that every caller that has seen the room would have to throw away.
    pub fn push(&mut self, rule: Rule) -> bool
        ensures value { result ≡ nat_lt (length (held self.old)) 256 }
        ensures after { held self.new ≡ (if result then held self.old ++ (rule ∷ []) else held self.old) }
    {
        let at = self.len;
        if at >= MOST_RULES {
            return false;
        }
        self.rules[at] = rule;
        self.len = at + 1;
        true
    }
}
