ghost use Rattle.steps.specs.Parts.{Ready};

use rules::rule::Rule;

// A logic program as a step takes it: rules, and how many matters they are about.
#[derive(Clone, Copy)]
pub struct Program<'a> {
    pub rules: &'a [Rule],
    pub matters: u8,
    ghost ready: { Ready matters rules.now },
}
