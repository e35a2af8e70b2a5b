ghost use Rattle.report.specs.Reports.{Reported};

use crate::text::Text;
use evaluator::answer::EvaluatorFault;
use evaluator::model::well_founded;
use evaluator::outcomes::outcomes;
use orders::order::Order;
use racks::rack::Rack;

// Lists the outcomes, writes the report on them and on the well-founded model to the front of `out`, and answers its length.
pub fn write_report<R: Rack, O: Order>(
    rack: &R,
    order: &O,
    list: &mut [u16],
    out: &mut [u8],
) -> Result<usize, EvaluatorFault>
    ensures { Reported (R.Rack.meaning rack.now).rules (O.Order.over order.now) (R.Rack.meaning rack.now).matters O.Order.CODE list.old list.new out.old out.new result }
{
    let count = outcomes(rack, order, list)?;
    let model = well_founded(rack, order);
    let matters = rack.shape().matters;
    let text = Text {
        code: O::CODE,
        matters,
        outcomes: &list[..count],
        model: model.literals,
    };
    text.write(out).ok_or(EvaluatorFault::TextTooLong)
}
