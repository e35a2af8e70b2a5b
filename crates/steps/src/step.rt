ghost use Rattle.rules.specs.Semantics.{Overruling, Step};
ghost use Rattle.steps.specs.Parts.{Tabled};

use crate::claims::Claims;
use crate::closure::closure;
use crate::program::Program;
use crate::rejection::survivors;
use rules::rule::LiteralSet;
use rules::sets::SheetSets;

// The closure of the rules that are not rejected in `x` and the defaults in `x`.
pub fn step(program: Program, overrulers: &SheetSets, x: LiteralSet) -> LiteralSet
    ensures { (over : Overruling) → Tabled over overrulers.now → Step program.entry.rules.now over program.entry.matters x result }
{
    let claims = Claims::in_set(program, x);
    let standing = survivors(program, overrulers, &claims);
    closure(standing.as_slice(), claims.defaults(program.matters))
}
