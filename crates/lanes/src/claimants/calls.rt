ghost use Rattle.std.specs.Prelude.{◌≡◌, ℕ, ◌<◌, length, replicate};
ghost use Rattle.rules.specs.Semantics.{LiteralSet as Literals};
ghost use Rattle.rules.specs.declared.rule.Rule.{Rule as SomeRule};
ghost use Rattle.rules.specs.Semantics.{◌∈◌};
ghost use Rattle.steps.specs.Parts.{SetOf};
ghost use Rattle.lanes.specs.Blocks.{Has};
ghost use Rattle.lanes.specs.Claiming.{Gathered, Added, Among};

use crate::block::Block;
use crate::claimants::Claimants;
use crate::words::any_of;
use rules::rule::{Rule, Sign};
use rules::table::MOST_SHEETS;

impl Claimants {
    // Who claims the literal of this sign, by rules that are all about its matter.
    pub fn of(rules: &[Rule], sign: Sign, block: &Block) -> Claimants
        requires { (r : SomeRule) → r ∈ rules.now → r.sheet < 32 }
        ensures { (X : ℕ → Literals) → Has X block.now → Gathered rules.now (length rules.now) X sign result }
    {
        let mut claimants = Claimants::none();
        for r in rules {
            if r.sign == sign {
                claimants.add(r.sheet, block.body_true(*r));
            }
        }
        claimants
    }

    fn none() -> Claimants
        ensures sheets { result.sheets ≡ 0 }
        ensures lanes { result.lanes ≡ replicate 32 0 }
    {
        Claimants {
            sheets: 0,
            lanes: [0; MOST_SHEETS],
        }
    }

    fn add(&mut self, sheet: u8, lanes: u64)
        requires { sheet < 32 }
        ensures { Added sheet lanes self.old self.new }
    {
        if lanes != 0 {
            self.sheets |= 1 << sheet;
            self.lanes[sheet as usize] |= lanes;
        }
    }

    // The lanes in which a sheet of the set claims it.
    pub fn among(&self, set: u32) -> u64
        ensures { SetOf result (Among self.now set) }
    {
        any_of(&self.lanes, self.sheets & set)
    }
}
