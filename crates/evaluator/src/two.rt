ghost use Rattle.evaluator.specs.Laws.{ListedTwo};

use crate::answer::EvaluatorFault;
use crate::outcomes::outcomes;
use orders::order::Order;
use racks::rack::Rack;

// Lists the outcomes of two racks under one order, to compare them.
// Racks that differ only in tautologies list the same, and every outcome keeps to its rack's well-founded model.
pub fn outcomes_of_two<R: Rack, S: Rack, O: Order>(
    left: &R,
    right: &S,
    order: &O,
    left_list: &mut [u16],
    right_list: &mut [u16],
) -> (Result<usize, EvaluatorFault>, Result<usize, EvaluatorFault>)
    ensures { ListedTwo (R.Rack.meaning left.now) (S.Rack.meaning right.now) (O.Order.over order.now) left_list.old left_list.new right_list.old right_list.new result.0 result.1 }
{
    (
        outcomes(left, order, left_list),
        outcomes(right, order, right_list),
    )
}
