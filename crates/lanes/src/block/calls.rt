ghost use Rattle.std.specs.Prelude.{ℕ, ◌<◌};
ghost use Rattle.rules.specs.Semantics.{LiteralSet as Literals, ◌⊆◌, body};
ghost use Rattle.steps.specs.Parts.{SetOf};
ghost use Rattle.lanes.specs.Blocks.{Has};

use crate::block::Block;
use crate::words::all_of;
use rules::rule::Rule;

impl Block {
    // The lanes in which the body of the rule is true.
    pub fn body_true(&self, rule: Rule) -> u64
        ensures { (X : ℕ → Literals) → Has X self.now → SetOf result (λ l. (l < 64) × (body rule ⊆ X l)) }
    {
        if !rule.body_true(self.some) {
            return 0;
        }
        let yes = all_of(&self.yes, (rule.yes & self.varying) as u32);
        let no = all_of(&self.no, (rule.no & self.varying) as u32);
        yes & no
    }
}
