ghost use Rattle.rules.specs.Refusals.{Judged};
ghost use Rattle.laying.specs.Faults.{rack_number};
ghost use Rattle.laying.specs.Laying.{admit_table};

use crate::fault::RackFault;
use rules::record::Record;
use rules::rule::Shape;

// Why a rule is not laid on sheets of this shape, which have so many places: the refusals in their order, for the pocket rack and the
// amended layer alike.
pub fn admit(sheets: Shape, places: usize, record: Record) -> Result<(), RackFault>
    ensures { Judged rack_number (admit_table sheets places «record») (λ _. Unit {0}) (Unit {0}) result }
{
    if sheets.sheets == 0 {
        return Err(RackFault::NoSheet);
    }
    if record.check(sheets.matters, 0).is_none() {
        return Err(RackFault::BadRule);
    }
    if usize::from(sheets.rules) >= places {
        return Err(RackFault::PlacesFull);
    }
    Ok(())
}
