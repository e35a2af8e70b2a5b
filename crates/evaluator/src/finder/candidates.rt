ghost use Rattle.std.specs.Prelude.{◌≡◌, ℕ, ◌^◌, ◌<◌, length, bit_or, Decides};
ghost use Rattle.rules.specs.Held.{held};
ghost use Rattle.rules.specs.Semantics.{Overruling, Outcome};
ghost use Rattle.steps.specs.Parts.{Ready, Tabled};
ghost use Rattle.steps.specs.Subsets.{part};

use crate::finder::bounds::numbered;
use rules::matters::all_matters;
use rules::sets::SheetSets;
use rules::table::Table;
use steps::program::Program;
use steps::step::step;

// The sets that are tried: those between the yes matters of the well-founded model and what its no matters leave.
// Each is the yes matters with a part of the matters that the model leaves undecided.
// The parts are numbered, and ascend with their numbers.
#[derive(Clone, Copy)]
pub struct Candidates {
    pub table: Table,
    pub matters: u8,
    pub overrulers: SheetSets,
    pub yes: u16,
    pub undecided: u16,
    ghost ready: { Ready matters (held table) },
    ghost whole: { length overrulers ≡ 32 },
    ghost below: { (t : ℕ) → bit_or yes (part 16 undecided t) < 2 ^ matters },
}

impl Candidates {
    ghost use Rattle.evaluator.specs.Finding.{candidate, Tried};

    // The candidate with this number, if it is an outcome.
    pub fn outcome(&self, number: u32) -> Option<u16>
        ensures { Tried self.now number result }
    {
        let m = self.candidate(number);
        self.is_outcome(m).then_some(m)
    }

    fn candidate(&self, number: u32) -> u16
        ensures { result ≡ candidate self.now number }
    {
        self.yes | numbered(self.undecided, number)
    }

    fn is_outcome(&self, m: u16) -> bool
        requires { m < 2 ^ self.now.matters }
        ensures { (over : Overruling) → Tabled over self.now.overrulers → Decides result (Outcome (held self.now.table) over self.now.matters m) }
    {
        let x = (m, all_matters(self.matters) - m);
        step(self.program(), &self.overrulers, x) == x
    }

    fn program(&self) -> Program<'_>
        ensures rules { result.rules.now ≡ held self.now.table }
        ensures matters { result.matters ≡ self.now.matters }
    {
        Program {
            rules: self.table.as_slice(),
            matters: self.matters,
        }
    }
}
