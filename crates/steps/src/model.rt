ghost use Rattle.rules.specs.Semantics.{Overruling};
ghost use Rattle.steps.specs.Modelling.{Modelled};
ghost use Rattle.steps.specs.Ruling.{Ruled};

use crate::overrulers::Overrulers;
use crate::program::Program;
use crate::step::step;
use rules::rule::LiteralSet;

// The well-founded model: the literals that it holds, and the rounds after which they were found.
#[derive(Clone, Copy, PartialEq, Eq, Debug)]
pub struct Model {
    pub literals: LiteralSet,
    pub rounds: u8,
}

// Takes turns of the broad and the narrow step from the empty set until one adds nothing.
pub fn settle(program: Program, overrulers: &Overrulers) -> Model
    requires { (over : Overruling) × Ruled over overrulers.now }
    ensures { (over : Overruling) → Ruled over overrulers.now → Modelled program.entry.rules.now over program.entry.matters result }
{
    let mut x = (0, 0);
    let mut rounds = 0;
    // It stays a loop: the rounds come by `break`.
    let (literals, rounds) = 'turns: loop {
        let y = step(program, &overrulers.broad, x);
        let z = step(program, &overrulers.narrow, y);
        if z == x {
            break 'turns (x, rounds);
        }
        x = z;
        rounds += 1;
    };
    Model { literals, rounds }
}
