ghost use Rattle.std.specs.Prelude.{◌≡◌, refl};
ghost use Rattle.laying.specs.Laying.{ground};
ghost use Rattle.laying.specs.Pocketing.{pocket_meaning, bare, SetsUp};
ghost use Rattle.laying.specs.Laid.{grounded_low};

use crate::admission::admit;
use crate::fault::RackFault;
use crate::open_rack::OpenRack;
use crate::pocket::PocketRack;
use racks::rack::Rack;
use racks::sheets::Sheets;
use rules::record::Record;
use rules::rule::{Rule, Shape};
use rules::table::Table;

const PLACES: usize = 64;

impl PocketRack {
    // One matter, and no sheet.
    pub fn new() -> PocketRack
        ensures { pocket_meaning result ≡ bare 1 }
    {
        PocketRack {
            sheets: Sheets::new(),
        }
    }

    // So many matters, and no sheet. A refusal changes nothing.
    pub fn set_up(&mut self, matters: u8) -> Result<(), RackFault>
        ensures { SetsUp matters (pocket_meaning self.old) result (pocket_meaning self.new) }
    {
        let sheets = Sheets::with_matters(matters).ok_or(RackFault::Matters)?;
        *self = PocketRack { sheets };
        Ok(())
    }
}

// Each call is the sheets' own: an `impl` cannot be delegated, and one for all that hold sheets would be no shorter.
impl Rack for PocketRack {
    ghost meaning = { pocket_meaning };

    ghost kept = { λ x. x.sheets.kept };

    fn shape(&self) -> Shape {
        self.sheets.shape()
    }

    fn rule(&self, place: u16) -> Option<Rule> {
        self.sheets.rule(place)
    }

    fn read(&self) -> Table {
        self.sheets.read()
    }
}

impl OpenRack for PocketRack {
    ghost state = { λ x. ground (pocket_meaning x) 0 64 };

    ghost same_meaning = { λ x. refl };

    ghost grounded = { λ x. grounded_low (pocket_meaning x) x.housed };

    fn begin(&mut self) -> Result<(), RackFault> {
        self.sheets.begin().ok_or(RackFault::TooManySheets)
    }

    fn lay(&mut self, record: Record) -> Result<(), RackFault> {
        admit(self.shape(), PLACES, record)?;
        // Not refused: 64 places are fewer than a table has, and the rule was admitted.
        self.sheets.lay(record).unwrap();
        Ok(())
    }

    fn withdraw(&mut self) -> Result<(), RackFault> {
        self.sheets.withdraw().ok_or(RackFault::NoSheet)
    }
}
