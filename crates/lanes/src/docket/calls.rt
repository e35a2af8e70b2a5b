ghost use Rattle.std.specs.Prelude.{◌≡◌, ◌+◌, ◌<◌, ◌≤◌, [], ◌++◌, length, replicate, filter, slice_index, slice_set};
ghost use Rattle.rules.specs.Held.{held};
ghost use Rattle.rules.specs.Semantics.{body, holds, Formed};
ghost use Rattle.lanes.specs.Docketing.{about as rule_about, group, Docketed};

use crate::docket::{Docket, STARTS};
use rules::matters::MOST_MATTERS;
use rules::rule::{Rule, Sign};
use rules::sets::has;
use rules::table::Table;

impl Docket {
    pub fn of(rules: &[Rule]) -> Docket
        requires few { length rules.now ≤ 256 }
        ensures { Docketed rules.now 16 result }
    {
        let mut docket = Docket::empty();
        for matter in 0..MOST_MATTERS as u8 {
            docket.add(rules, matter);
        }
        docket
    }

    fn empty() -> Docket
        ensures rules { held result.rules ≡ [] }
        ensures starts { result.starts ≡ replicate 17 0 }
    {
        let rules = Table::new();
        Docket {
            rules,
            starts: [0; STARTS],
        }
    }

    // Adds the rules about the matter.
    fn add(&mut self, rules: &[Rule], matter: u8)
        requires matter { matter < 16 }
        requires room { length (held self.old.rules) + length (filter (rule_about matter) rules.now) ≤ 256 }
        ensures rules { held self.new.rules ≡ held self.old.rules ++ filter (rule_about matter) rules.now }
        ensures starts { self.new.starts ≡ slice_set self.old.starts (matter + 1) (length (held self.new.rules)) }
    {
        gather(&mut self.rules, rules, matter);
        self.starts[matter as usize + 1] = self.rules.len();
    }

    // The rules about the matter.
    pub fn about(&self, matter: u8) -> &[Rule]
        requires matter { matter < 16 }
        requires rising { slice_index self.now.starts matter ≤ slice_index self.now.starts (matter + 1) }
        requires inside { slice_index self.now.starts (matter + 1) ≤ length (held self.now.rules) }
        ensures { result.now ≡ group self.now matter }
    {
        let at = matter as usize;
        &self.rules.as_slice()[self.starts[at]..self.starts[at + 1]]
    }
}

// Adds the rules about the matter to the table. `Table::filtered` is of no use: it makes a table, and this one goes on.
fn gather(table: &mut Table, rules: &[Rule], matter: u8)
    requires room { length (held table.old) + length (filter (rule_about matter) rules.now) ≤ 256 }
    ensures { held table.new ≡ held table.old ++ filter (rule_about matter) rules.now }
{
    for r in rules {
        if is_about(*r, matter) {
            table.push(*r);
        }
    }
}

fn is_about(r: Rule, matter: u8) -> bool
    ensures { result ≡ rule_about matter r }
{
    r.head == matter && !is_tautology(r)
}

// Whether the head stands in the rule's own body.
fn is_tautology(r: Rule) -> bool
    ensures { result ≡ holds (body r) r.sign r.head }
{
    match r.sign {
        Sign::Yes => has(r.yes.into(), r.head),
        Sign::No => has(r.no.into(), r.head),
    }
}
