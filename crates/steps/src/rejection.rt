ghost use Rattle.std.specs.Prelude.{◌<◌, Decides};
ghost use Rattle.rules.specs.Held.{held};
ghost use Rattle.steps.specs.Parts.{Members};
ghost use Rattle.steps.specs.Claiming.{Against, Standing};

use crate::bits::meet;
use crate::claims::Claims;
use crate::program::Program;
use rules::rule::Rule;
use rules::sets::SheetSets;
use rules::table::Table;

// The rules that are not rejected where these sheets make their claims.
pub fn survivors(program: Program, overrulers: &SheetSets, claims: &Claims) -> Table
    ensures { Members (held result) (Standing program.entry.rules.now overrulers.now claims.now) }
{
    Table::filtered(program.rules, |r| !rejected(r, overrulers, claims))
}

// Whether a sheet that overrules that of the rule claims the opposite of its head.
fn rejected(r: Rule, overrulers: &SheetSets, claims: &Claims) -> bool
    requires head { r.head < 16 }
    requires sheet { r.sheet < 32 }
    ensures { Decides result (Against overrulers.now claims.now r) }
{
    let opposing = claims.of(r.sign.opposite(), r.head);
    meet(opposing, overrulers[r.sheet as usize])
}
