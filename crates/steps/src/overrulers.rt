ghost use Rattle.std.specs.Prelude.{◌≡◌, ◌<◌, true, length, Decides};
ghost use Rattle.rules.specs.Semantics.{Overruling, strictly};
ghost use Rattle.steps.specs.Parts.{SetOf, Overrules, Tabled};

use crate::bits::those;
use orders::order::Order;
use rules::sets::{SheetSets, has};
use rules::table::MOST_SHEETS;
use std::array;

// The order, asked once for each two sheets. Both tables have for each sheet a set of sheets. A step takes one table and not the other.
#[derive(Clone, Copy)]
pub struct Overrulers {
    // Those that overrule it.
    pub broad: SheetSets,
    // Those of them that it does not overrule in turn.
    pub narrow: SheetSets,
    ghost whole: { length broad ≡ 32 },
    ghost complete: { length narrow ≡ 32 },
}

impl Overrulers {
    ghost use Rattle.steps.specs.Ruling.{Ruled};

    pub fn of<O: Order>(order: &O) -> Overrulers
        ensures { Ruled (O.Order.over order.now) result }
    {
        let broad = array::from_fn(|i| overrulers_of(order, i as u8));
        let narrow = array::from_fn(|i| one_way_overrulers_of(&broad, i as u8));
        Overrulers { broad, narrow }
    }
}

// The sheets that overrule sheet `i`.
fn overrulers_of<O: Order>(order: &O, i: u8) -> u32
    ensures { SetOf result (Overrules (O.Order.over order.now) i) }
{
    those(MOST_SHEETS as u8, |j| order.overrules(j, i))
}

// Those of them that it does not overrule in turn.
fn one_way_overrulers_of(broad: &SheetSets, i: u8) -> u32
    requires { i < 32 }
    ensures { (over : Overruling) → Tabled over broad.now → SetOf result (Overrules (strictly over) i) }
{
    those(MOST_SHEETS as u8, |j| one_way(broad, j, i))
}

// Whether `j` overrules `i`, and not the other way round too.
fn one_way(broad: &SheetSets, j: u8, i: u8) -> bool
    requires j { j < 32 }
    requires i { i < 32 }
    ensures { (over : Overruling) → Tabled over broad.now → Decides result (strictly over j i ≡ true) }
{
    has(broad[i as usize].into(), j) && !has(broad[j as usize].into(), i)
}
