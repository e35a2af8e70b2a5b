ghost use Rattle.std.specs.Prelude.{◌≡◌, Bool, take, filter};
ghost use Rattle.rules.specs.declared.rule.Rule.{Rule as SomeRule};
ghost use Rattle.rules.specs.Held.{held};
ghost use Rattle.rules.specs.Semantics.{◌∈◌};
ghost use Rattle.rules.specs.Tests.{Tests};

use crate::rule::Rule;
use crate::table::Table;

impl Table {
    // The rules that are wanted, in their order; the first `MOST_RULES` of them, if there are more.
    pub fn filtered<F: Fn(Rule) -> bool>(rules: &[Rule], wanted: F) -> Table
        requires { (r : SomeRule) → r ∈ rules.now → F.pre wanted r }
        ensures { (test : SomeRule → Bool) → Tests rules.now (F.post wanted) test → held result ≡ take 256 (filter test rules.now) }
    {
        let mut table = Table::new();
        for rule in rules {
            if wanted(*rule) {
                table.push(*rule);
            }
        }
        table
    }
}
