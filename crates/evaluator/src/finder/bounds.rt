ghost use Rattle.std.specs.Prelude.{◌≡◌, ◌^◌, ◌≤◌, if◌then◌else◌, bit_and, count_ones, nat_eq};
ghost use Rattle.steps.specs.Parts.{SetOf};
ghost use Rattle.steps.specs.Subsets.{part, Undecided};

use rules::matters::all_matters;
use rules::rule::LiteralSet;
use rules::sets::has;
use steps::bits::with_matter;

// The matters of which the model holds neither sign.
pub fn undecided(matters: u8, model: LiteralSet) -> u16
    requires { matters ≤ 16 }
    ensures { SetOf result (Undecided matters model) }
{
    all_matters(matters) & !(model.0 | model.1)
}

// How many parts the set has; none is tried if the model holds both signs of a matter.
pub fn parts(model: LiteralSet, set: u16) -> u32
    ensures { result ≡ (if nat_eq (bit_and model.0 model.1) 0 then 2 ^ count_ones set else 0) }
{
    if model.0 & model.1 == 0 {
        1 << set.count_ones()
    } else {
        0
    }
}

// The part of the set with this number: bit `i` of the number is for the `i`-th lowest matter of the set.
pub fn numbered(set: u16, number: u32) -> u16
    ensures { result ≡ part 16 set number }
{
    let members = (0..16).filter(|a| has(set.into(), *a));
    let mut chosen = 0;
    for (place, a) in members.enumerate() {
        chosen = with_matter(chosen, a, has(number.into(), place as u8));
    }
    chosen
}
