ghost use Rattle.std.specs.Prelude.{◌<◌};
ghost use Rattle.rules.specs.declared.rule.Rule.{Rule as SomeRule};
ghost use Rattle.rules.specs.Semantics.{◌∈◌};

use crate::block::Block;
use crate::claimants::Claimants;
use rules::rule::Rule;
use rules::sets::SheetSets;

mod calls;

// Who claims a matter, and who its negation, by the rules about it, in the lanes of a block.
#[derive(Clone, Copy)]
pub struct Contest<'a> {
    pub rules: &'a [Rule],
    block: &'a Block,
    // For each sheet, those that overrule it.
    overrulers: &'a SheetSets,
    yes: Claimants,
    no: Claimants,
    ghost sheets: { (r : SomeRule) → r ∈ rules.now → r.sheet < 32 },
}
