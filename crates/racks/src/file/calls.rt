ghost use Rattle.std.specs.Prelude.{◌≡◌, []};
ghost use Rattle.racks.specs.Packing.{rack_of};
ghost use Rattle.racks.specs.Filing.{file_meaning, Fills, Unambiguous};

use crate::file::FileRack;
use crate::file::fault::FileFault;
use crate::file::reader::parse;
use crate::rack::Rack;
use crate::sheets::Sheets;
use rules::rule::{Rule, Shape};
use rules::table::Table;

impl FileRack {
    // One matter, and no sheet: what stands until a file comes.
    pub fn new() -> FileRack
        ensures { file_meaning result ≡ rack_of 1 [] }
    {
        FileRack {
            sheets: Sheets::new(),
        }
    }

    // Takes the rack of a packed file in place of the old one; a refusal keeps the old one.
    pub fn fill(&mut self, bytes: &[u8]) -> Result<(), FileFault>
        ensures fills { Fills bytes.now self.old result self.new }
        ensures unambiguous { Unambiguous bytes.now }
    {
        *self = parse(bytes)?;
        Ok(())
    }
}

// Each call is the sheets' own: an `impl` cannot be delegated, and one for all that hold sheets would be no shorter.
impl Rack for FileRack {
    ghost meaning = { file_meaning };

    ghost kept = { λ x. x.sheets.kept };

    fn shape(&self) -> Shape {
        self.sheets.shape()
    }

    fn rule(&self, place: u16) -> Option<Rule> {
        self.sheets.rule(place)
    }

    fn read(&self) -> Table {
        self.sheets.read()
    }
}
