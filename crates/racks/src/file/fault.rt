ghost use Rattle.racks.specs.Faults.{file_number};
ghost use Rattle.rules.specs.declared.refusal.Layer.TheVariants.{File as FileLayer};

use rules::refusal::{Layer, Refusal};

// Why bytes are no packed file.
#[derive(Clone, Copy, PartialEq, Eq, Debug)]
pub enum FileFault {
    TooShort = 1,
    Version = 2,
    Matters = 3,
    TooManySheets = 4,
    CutOff = 5,
    Ragged = 6,
    TooManyRules = 7,
    BadRule = 8,
    LeftOver = 9,
}

impl Refusal for FileFault {
    ghost numbered = { file_number };

    ghost layered = { λ _. FileLayer };

    fn number(self) -> u8 {
        self as u8
    }

    fn layer(self) -> Layer {
        Layer::File
    }
}
