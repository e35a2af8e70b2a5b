ghost use Rattle.std.specs.Prelude.{ℕ, ◌<◌, ◌≤◌, List};
ghost use Rattle.rules.specs.declared.rule.Rule.{Rule as SomeRule};
ghost use Rattle.rules.specs.Semantics.{LiteralSet as Literals, Overruling, struck};
ghost use Rattle.steps.specs.Parts.{SetOf};
ghost use Rattle.lanes.specs.Settling.{Stands};
ghost use Rattle.lanes.specs.Trying.{Sound, Facing, Sweeps};

use crate::block::Block;
use crate::trial::Trial;

impl Trial {
    // Of these lanes, those in which each matter from `from` up to `to` stands, or the first matter that leaves none of them.
    pub fn sweep(&self, block: &Block, from: u8, to: u8, lanes: u64) -> Result<u64, u8>
        requires sound { (P : List SomeRule) × Sound P self.now }
        requires rising { from ≤ to }
        requires inside { to ≤ 16 }
        ensures { (P : List SomeRule) (over : Overruling) (X : ℕ → Literals) → Facing P over X self.now block.now → to ≤ self.now.matters → Sweeps P over self.now.matters X from to lanes result }
    {
        let mut lanes = lanes;
        for matter in from..to {
            lanes &= self.standing(block, matter);
            if lanes == 0 {
                return Err(matter);
            }
        }
        Ok(lanes)
    }

    // The lanes in which the matter stands.
    fn standing(&self, block: &Block, matter: u8) -> u64
        requires sound { (P : List SomeRule) × Sound P self.now }
        requires matter { matter < 16 }
        ensures { (P : List SomeRule) (over : Overruling) (X : ℕ → Literals) → Facing P over X self.now block.now → matter < self.now.matters → SetOf result (λ l. (l < 64) × Stands (struck P) over self.now.matters (X l) matter) }
    {
        self.contest(block, matter).settled(matter)
    }
}
