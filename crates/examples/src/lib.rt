// The worked examples of docs/SEMANTICS.md, as one proposition that is proved.
#![tactic(auto)]

ghost use Rattle.examples.specs.Examples.{Examples};

// What the definitions say of each worked example is what it should be.
pub fn examples_hold()
    ensures { Examples }
{}
