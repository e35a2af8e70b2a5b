ghost use Rattle.std.specs.Prelude.{◌≡◌, ℕ, ◌<◌, List};
ghost use Rattle.rules.specs.declared.rule.Rule.{Rule as SomeRule};
ghost use Rattle.rules.specs.Semantics.{LiteralSet as Literals, ◌∈◌, opposite, Overruling};
ghost use Rattle.steps.specs.Parts.{SetOf, Tabled, Members};
ghost use Rattle.lanes.specs.Blocks.{Has};
ghost use Rattle.lanes.specs.Claiming.{Among};
ghost use Rattle.lanes.specs.Contesting.{side, Contested, Hears, Unrejected, About};
ghost use Rattle.lanes.specs.Founding.{Live};
ghost use Rattle.lanes.specs.Settling.{Stands};

use crate::block::Block;
use crate::claimants::Claimants;
use crate::contest::Contest;
use crate::members::members_of;
use rules::rule::{Rule, Sign};
use rules::sets::SheetSets;

impl<'a> Contest<'a> {
    // The contest about a matter, by the rules about it.
    pub fn among(rules: &'a [Rule], block: &'a Block, overrulers: &'a SheetSets) -> Contest<'a>
        requires { (r : SomeRule) → r ∈ rules.now → r.sheet < 32 }
        ensures rules { result.rules.now ≡ rules.now }
        ensures contested { (X : ℕ → Literals) → Has X block.now → Contested X result }
        ensures hears { (Q : List SomeRule) (over : Overruling) (X : ℕ → Literals) (a : ℕ) → Has X block.now → Tabled over overrulers.now → Members rules.now (About Q a) → Hears Q over X a result }
    {
        let yes = Claimants::of(rules, Sign::Yes, block);
        let no = Claimants::of(rules, Sign::No, block);
        Contest {
            rules,
            block,
            overrulers,
            yes,
            no,
        }
    }

    // The lanes in which a sheet of the set claims the opposite of the literal.
    pub fn against(&self, sign: Sign, set: u32) -> u64
        ensures { SetOf result (Among (side (opposite sign) self.now) set) }
    {
        self.side(sign.opposite()).among(set)
    }

    // The lanes in which nobody claims the matter.
    pub fn unclaimed(&self) -> u64
        ensures { SetOf result (λ l. (l < 64) × (Among self.now.yes 4294967295 l → ⊥)) }
    {
        !self.yes.among(u32::MAX)
    }

    fn side(&self, sign: Sign) -> &Claimants
        ensures { result.now ≡ side sign self.now }
    {
        match sign {
            Sign::Yes => &self.yes,
            Sign::No => &self.no,
        }
    }

    // The lanes in which a claim to the literal is not rejected.
    fn unrejected(&self, sign: Sign) -> u64
        ensures { SetOf result (λ l. (j : ℕ) × (j < 32) × ((l < 64) × Unrejected self.now sign l j)) }
    {
        members_of(self.side(sign).sheets).fold(
            0,
            move |lanes, sheet| lanes | self.unopposed(sign, sheet),
        )
    }

    // The lanes in which this sheet claims the literal, and none of those that overrule it the opposite.
    fn unopposed(&self, sign: Sign, sheet: usize) -> u64
        requires { sheet < 32 }
        ensures { SetOf result (λ l. (l < 64) × Unrejected self.now sign l sheet) }
    {
        self.side(sign).lanes[sheet] & !self.against(sign, self.overrulers[sheet])
    }

    // The lanes whose set takes the side on the matter that the rules about it leave.
    pub fn settled(&self, matter: u8) -> u64
        requires { matter < 16 }
        ensures { (Q : List SomeRule) (over : Overruling) (n : ℕ) (X : ℕ → Literals) → Hears Q over X matter self.now → matter < n → SetOf result (λ l. (l < 64) × Stands Q over n (X l) matter) }
    {
        let at = matter as usize;
        let held = self.unrejected(Sign::Yes);
        let denied = self.unrejected(Sign::No) | self.unclaimed();
        (self.block.yes[at] & held) | (self.block.no[at] & denied)
    }

    // The lanes in which the rule is true and not rejected.
    pub fn live(&self, r: Rule) -> u64
        requires { r ∈ self.now.rules.now }
        ensures { (Q : List SomeRule) (over : Overruling) (X : ℕ → Literals) (a : ℕ) → Hears Q over X a self.now → SetOf result (λ l. (l < 64) × Live Q over (X l) r) }
    {
        self.block.body_true(r) & !self.against(r.sign, self.overrulers[r.sheet as usize])
    }
}
