ghost use Rattle.std.specs.Prelude.{◌≡◌};
ghost use Rattle.laying.specs.Laying.{Ground, Grounded, Begins, Lays, Withdraws};

use crate::fault::RackFault;
use racks::rack::Rack;
use rules::record::Record;

// A rack on which sheets are begun, laid on and withdrawn. A refused call changes nothing.
pub trait OpenRack: Rack {
    // The rack's meaning, with the sheets that it cannot withdraw and its rule places above them.
    ghost state: { Self → Ground };

    // A new sheet on top, with no rule yet.
    fn begin(&mut self) -> Result<(), RackFault>
        ensures { Begins (state self.old) result (state self.new) };

    // One rule more on the top sheet.
    fn lay(&mut self, record: Record) -> Result<(), RackFault>
        ensures { Lays (state self.old) «record» result (state self.new) };

    // The top sheet goes, with its rules.
    fn withdraw(&mut self) -> Result<(), RackFault>
        ensures { Withdraws (state self.old) result (state self.new) };

    ghost same_meaning: { (x : Self) → (state x).meaning ≡ Self.Rack.meaning x };

    ghost grounded: { (x : Self) → Grounded (state x) };
}
