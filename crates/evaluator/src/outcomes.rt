ghost use Rattle.evaluator.specs.Answers.{Listed};

use crate::answer::EvaluatorFault;
use crate::finder::Finder;
use orders::order::Order;
use racks::rack::Rack;

// Lists the outcomes that the rack's sheets allow under the order, ascending, and answers their count.
// Into a list that is given: with no heap, no call can fail for want of memory.
pub fn outcomes<R: Rack, O: Order>(
    rack: &R,
    order: &O,
    list: &mut [u16],
) -> Result<usize, EvaluatorFault>
    ensures { Listed (R.Rack.meaning rack.now).rules (O.Order.over order.now) (R.Rack.meaning rack.now).matters list.old list.new result }
{
    let mut count = 0;
    for m in Finder::new(rack, order) {
        // The count is the answer. No `get_mut`: once its borrow is over, a proof knows no element of the list.
        if count == list.len() {
            return Err(EvaluatorFault::TooManyOutcomes);
        }
        list[count] = m;
        count += 1;
    }
    Ok(count)
}
