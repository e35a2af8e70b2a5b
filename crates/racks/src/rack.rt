ghost use Rattle.std.specs.Prelude.{◌≡◌};
ghost use Rattle.std.specs.List.{slice_get};
ghost use Rattle.rules.specs.Held.{held};
ghost use Rattle.racks.specs.Meaning.{Meaning, Kept, shaped};

use rules::rule::{Rule, Shape};
use rules::table::Table;

// A pile of sheets that can be read. Asking changes nothing.
pub trait Rack {
    ghost meaning: { Self → Meaning };

    // The numbers of matters, sheets and rules; one question, so that a pile of layers asks each layer once.
    fn shape(&self) -> Shape
        ensures { result ≡ shaped (meaning self.now) };

    // The rule at a place, or none past the end.
    fn rule(&self, place: u16) -> Option<Rule>
        ensures { result ≡ slice_get (meaning self.now).rules place };

    // All rules in order, asked for by their places: a rack need hold no slice. A layer writes its own, so that a pile is read once through.
    fn read(&self) -> Table
        ensures { held result ≡ (meaning self.now).rules }
    {
        let mut table = Table::new();
        let shape = self.shape();
        for place in 0..shape.rules {
            if let Some(rule) = self.rule(place) {
                table.push(rule);
            }
        }
        table
    }

    // Shape and rules at once. A layer that needs both asks the rack below by this one call,
    // so that a pile is surveyed, read and counted in time linear in its depth.
    fn survey(&self) -> (Shape, Table)
        ensures shape { result.0 ≡ shaped (meaning self.now) }
        ensures rules { held result.1 ≡ (meaning self.now).rules }
    {
        (self.shape(), self.read())
    }

    ghost kept: { (x : Self) → Kept (meaning x) };
}
