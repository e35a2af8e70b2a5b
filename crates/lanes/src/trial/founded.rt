ghost use Rattle.std.specs.Prelude.{ℕ, List};
ghost use Rattle.rules.specs.declared.rule.Rule.{Rule as SomeRule};
ghost use Rattle.rules.specs.Semantics.{LiteralSet as Literals, Overruling, struck};
ghost use Rattle.lanes.specs.Founding.{HoldingTo, FoundedIn};
ghost use Rattle.lanes.specs.Trying.{Sound, Facing};

use crate::block::Block;
use crate::firing::Firings;
use crate::trial::Trial;
use crate::words::all_of;
use rules::matters::all_matters;

impl Trial {
    // Of these lanes, those in which the closure reaches the literals of all matters.
    pub fn founded(&self, block: &Block, lanes: u64) -> u64
        requires { (P : List SomeRule) × Sound P self.now }
        ensures { (P : List SomeRule) (over : Overruling) (X : ℕ → Literals) → Facing P over X self.now block.now → FoundedIn (struck P) over self.now.matters X lanes result }
    {
        let firings = self.firings(block, lanes);
        let reach = firings.reach();
        lanes & all_of(&reach.words, all_matters(self.matters).into())
    }

    // What the rules give in these lanes.
    fn firings(&self, block: &Block, lanes: u64) -> Firings
        requires { (P : List SomeRule) × Sound P self.now }
        ensures { (P : List SomeRule) (over : Overruling) (X : ℕ → Literals) → Facing P over X self.now block.now → HoldingTo (struck P) over self.now.matters X lanes self.now.matters result.items.items }
    {
        let mut firings = Firings::none();
        for matter in 0..self.matters {
            firings.enter(matter, &self.contest(block, matter), lanes);
        }
        firings
    }
}
