ghost use Rattle.std.specs.Prelude.{ℕ, List};
ghost use Rattle.rules.specs.declared.rule.Rule.{Rule as SomeRule};
ghost use Rattle.rules.specs.Semantics.{Mem, Overruling, Total, Outcome};
ghost use Rattle.steps.specs.Parts.{SetOf};
ghost use Rattle.lanes.specs.Trying.{Sound, Tries};

use crate::block::Block;
use crate::trial::Trial;

// The lanes that are left, and the matter to begin the next sweep at. No Option of lanes: a guess comes with some lanes and
// with none.
#[derive(Clone, Copy)]
pub struct Swept {
    pub lanes: u64,
    pub at: u8,
}

impl Trial {
    // Of these lanes, those whose candidate is an outcome. The sweep over the matters begins at `first`, a guess at one
    // that rules them all out; the answer says where it ended, as the next guess.
    pub fn outcomes(&self, block: &Block, lanes: u64, first: u8) -> Swept
        requires { (P : List SomeRule) × Sound P self.now }
        ensures { (P : List SomeRule) (over : Overruling) (M : ℕ → ℕ) → Total over → Tries P over M self.now block.now → SetOf result.lanes (λ l. Mem l lanes × Outcome P over self.now.matters (M l)) }
    {
        let first = if first < self.matters { first } else { 0 };
        let swept = self
            .sweep(block, first, self.matters, lanes)
            .and_then(|above| self.sweep(block, 0, first, above));
        match swept {
            Ok(standing) => Swept {
                lanes: self.founded(block, standing),
                at: first,
            },
            Err(at) => Swept { lanes: 0, at },
        }
    }
}
