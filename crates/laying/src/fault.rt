ghost use Rattle.laying.specs.Faults.{rack_number};
ghost use Rattle.rules.specs.declared.refusal.Layer.TheVariants.{Rack as RackLayer};

use rules::refusal::{Layer, Refusal};

// Why a rack is not set up, or a sheet not begun, laid on or withdrawn.
#[derive(Clone, Copy, PartialEq, Eq, Debug)]
pub enum RackFault {
    Matters = 3,
    TooManySheets = 11,
    NoSheet = 12,
    BadRule = 13,
    PlacesFull = 14,
}

impl Refusal for RackFault {
    ghost numbered = { rack_number };

    ghost layered = { λ _. RackLayer };

    fn number(self) -> u8 {
        self as u8
    }

    fn layer(self) -> Layer {
        Layer::Rack
    }
}
