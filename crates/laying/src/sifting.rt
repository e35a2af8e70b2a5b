ghost use Rattle.std.specs.Prelude.{◌≡◌, Bool, filter};
ghost use Rattle.rules.specs.declared.rule.Rule.{Rule};
ghost use Rattle.rules.specs.Held.{held};

use rules::rule::Rule;
use rules::table::Table;

// A choice among rules. A trait with its law, and no closure: a closure would leave it to the caller to show what it answers.
pub trait Choice {
    ghost chosen: { Self → Rule → Bool };

    fn takes(&self, rule: Rule) -> bool
        ensures { result ≡ chosen self.now rule };
}

// The chosen rules of the table, in their order.
pub fn sift<C: Choice>(table: &Table, choice: &C) -> Table
    ensures { held result ≡ filter (C.Choice.chosen choice.now) (held table.now) }
{
    Table::filtered(table.as_slice(), |rule| choice.takes(rule))
}
