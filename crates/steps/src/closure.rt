ghost use Rattle.rules.specs.Semantics.{Mem, ◌∈◌, Formed, Closure};
ghost use Rattle.rules.specs.Parts.{Round};

use rules::rule::{LiteralSet, Rule, Sign};

// The least literal set that holds the defaults and the head of each rule whose body it holds.
pub fn closure(rules: &[Rule], defaults: u16) -> LiteralSet
    requires { Formed 16 rules.now }
    ensures { Closure (λ r. r ∈ rules.now) (λ a. Mem a defaults) result }
{
    let mut y = (0, defaults);
    'grow: loop {
        let z = round(rules, y);
        if z == y {
            break 'grow y;
        }
        y = z;
    }
}

// `y` with the heads of the rules whose body is true in `y`.
fn round(rules: &[Rule], y: LiteralSet) -> LiteralSet
    requires { Formed 16 rules.now }
    ensures { Round rules.now y result }
{
    let mut z = y;
    for r in rules {
        if r.body_true(y) {
            match r.sign {
                Sign::Yes => z.0 |= 1 << r.head,
                Sign::No => z.1 |= 1 << r.head,
            }
        }
    }
    z
}
