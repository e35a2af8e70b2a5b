ghost use Rattle.std.specs.Prelude.{◌≡◌, ℕ, ◌<◌, List};
ghost use Rattle.rules.specs.declared.rule.Rule.{Rule as SomeRule};
ghost use Rattle.rules.specs.Semantics.{LiteralSet as Literals, Overruling, struck};
ghost use Rattle.lanes.specs.Contesting.{Hears};
ghost use Rattle.lanes.specs.Docketing.{group};
ghost use Rattle.lanes.specs.Trying.{Sound, Facing};

use crate::block::Block;
use crate::contest::Contest;
use crate::trial::Trial;

impl Trial {
    // The contest about a matter.
    pub(crate) fn contest<'a>(&'a self, block: &'a Block, matter: u8) -> Contest<'a>
        requires sound { (P : List SomeRule) × Sound P self.now }
        requires matter { matter < 16 }
        ensures rules { result.rules.now ≡ group self.now.docket matter }
        ensures hears { (P : List SomeRule) (over : Overruling) (X : ℕ → Literals) → Facing P over X self.now block.now → Hears (struck P) over X matter result }
    {
        Contest::among(self.docket.about(matter), block, &self.overrulers)
    }
}
