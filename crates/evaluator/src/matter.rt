ghost use Rattle.std.specs.Prelude.{◌≡◌, ◌||◌, Bool, not};
ghost use Rattle.rules.specs.Refusals.{Judged};
ghost use Rattle.evaluator.specs.Faults.{fault_number};
ghost use Rattle.evaluator.specs.Matters.{Reads, ReadingAnswered, RulingAnswered, matter_table, sum};

use crate::answer::{EvaluatorFault, Reading, Ruling};
use crate::finder::Finder;
use crate::model::well_founded;
use orders::order::Order;
use racks::rack::Rack;
use rules::rule::LiteralSet;
use rules::sets::has;

// How the well-founded model reads a matter.
pub fn reading<R: Rack, O: Order>(
    rack: &R,
    order: &O,
    matter: u8,
) -> Result<Reading, EvaluatorFault>
    ensures { ReadingAnswered (R.Rack.meaning rack.now).rules (O.Order.over order.now) (R.Rack.meaning rack.now).matters matter result }
{
    known(rack, matter)?;
    Ok(read(well_founded(rack, order).literals, matter))
}

// Whether every outcome has a matter, or none, or some. It needs no list, however many outcomes there are.
pub fn ruling<R: Rack, O: Order>(rack: &R, order: &O, matter: u8) -> Result<Ruling, EvaluatorFault>
    ensures { RulingAnswered (R.Rack.meaning rack.now).rules (O.Order.over order.now) (R.Rack.meaning rack.now).matters matter result }
{
    known(rack, matter)?;
    Ok(Finder::new(rack, order).fold(Ruling::NoOutcome, |ruling, m| {
        ruling.after(has(m.into(), matter))
    }))
}

// Refuses a matter that is none of the rack's.
fn known<R: Rack>(rack: &R, matter: u8) -> Result<(), EvaluatorFault>
    ensures { Judged fault_number (matter_table (R.Rack.meaning rack.now).matters matter) (λ _. Unit {0}) (Unit {0}) result }
{
    if matter < rack.shape().matters {
        Ok(())
    } else {
        Err(EvaluatorFault::NoMatter)
    }
}

fn read(x: LiteralSet, matter: u8) -> Reading
    ensures { Reads x matter result }
{
    match (has(x.0.into(), matter), has(x.1.into(), matter)) {
        (false, false) => Reading::Undefined,
        (true, false) => Reading::True,
        (false, true) => Reading::False,
        (true, true) => Reading::Contradictory,
    }
}

impl Ruling {
    // The ruling when one more outcome is seen, by whether it has the matter.
    fn after(self, with_it: bool) -> Ruling
        ensures { (with without : Bool) → self ≡ sum with without → result ≡ sum (with || with_it) (without || not with_it) }
    {
        match (self, with_it) {
            (Ruling::NoOutcome | Ruling::Always, true) => Ruling::Always,
            (Ruling::NoOutcome | Ruling::Never, false) => Ruling::Never,
            _ => Ruling::Varies,
        }
    }
}
