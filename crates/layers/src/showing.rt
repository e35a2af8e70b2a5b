ghost use Rattle.std.specs.Prelude.{◌≡◌, length, filter};
ghost use Rattle.rules.specs.Held.{held};
ghost use Rattle.layers.specs.Showing.{with_rules};

use laying::sifting::{Choice, sift};
use rules::rule::Shape;
use rules::table::Table;

// What a layer shows of a rack that it surveyed: the chosen rules, on the same sheets.
pub fn show<C: Choice>(below: (Shape, Table), choice: &C) -> (Shape, Table)
    ensures rules { held result.1 ≡ filter (C.Choice.chosen choice.now) (held below.1) }
    ensures shape { result.0 ≡ with_rules (length (held result.1)) below.0 }
{
    let (shape, table) = below;
    let shown = sift(&table, choice);
    let rules = shown.len() as u16;
    (Shape { rules, ..shape }, shown)
}
