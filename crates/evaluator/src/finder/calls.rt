ghost use Rattle.std.specs.Prelude.{◌-◌};
ghost use Rattle.std.specs.Iterator.{at_most};
ghost use Rattle.evaluator.specs.Finding.{From, Hands};

use crate::finder::Finder;
use crate::finder::bounds::{parts, undecided};
use crate::finder::candidates::Candidates;
use orders::order::Order;
use racks::rack::Rack;
use steps::model::settle;
use steps::overrulers::Overrulers;
use steps::program::Program;

impl Finder {
    // Finds the outcomes that the rack's sheets allow under the order.
    pub fn new<R: Rack, O: Order>(rack: &R, order: &O) -> Finder
        ensures { From (R.Rack.meaning rack.now).rules (O.Order.over order.now) (R.Rack.meaning rack.now).matters result 0 }
    {
        let (shape, table) = rack.survey();
        let matters = shape.matters;
        let program = Program {
            rules: table.as_slice(),
            matters,
        };
        let overrulers = Overrulers::of(order);
        let model = settle(program, &overrulers).literals;
        let undecided = undecided(matters, model);
        let candidates = Candidates {
            table,
            matters,
            overrulers: overrulers.broad,
            yes: model.0,
            undecided,
        };
        Finder {
            candidates,
            untried: 0..parts(model, undecided),
        }
    }
}

impl Iterator for Finder {
    type Item = u16;

    ghost next_gives = { Hands };

    ghost remaining = { λ f. at_most (f.untried.end - f.untried.start) };

    // The lowest outcome that was not given yet.
    fn next(&mut self) -> Option<u16> {
        self.untried
            .find_map(|number| self.candidates.outcome(number))
    }
}
