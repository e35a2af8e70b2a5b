ghost use Rattle.steps.specs.Modelling.{Modelled};

use orders::order::Order;
use racks::rack::Rack;
pub use steps::model::{Model, settle};
use steps::overrulers::Overrulers;
pub use steps::program::Program;

// The well-founded model of the rack's sheets under the order, and its rounds.
pub fn well_founded<R: Rack, O: Order>(rack: &R, order: &O) -> Model
    ensures { Modelled (R.Rack.meaning rack.now).rules (O.Order.over order.now) (R.Rack.meaning rack.now).matters result }
{
    let (shape, table) = rack.survey();
    let program = Program {
        rules: table.as_slice(),
        matters: shape.matters,
    };
    settle(program, &Overrulers::of(order))
}
