ghost use Rattle.std.specs.Prelude.{◌≡◌, ◌^◌, nat_lt};
ghost use Rattle.rules.specs.Records.{Checks};

use crate::matters::all_matters;
use crate::rule::{Rule, Sign};

// A rule as it arrives, on no sheet yet: plain numbers that may be nonsense.
#[derive(Clone, Copy, PartialEq, Eq, Debug)]
pub struct Record {
    pub head: u8,
    pub sign: u8,
    pub yes: u16,
    pub no: u16,
}

impl Record {
    // The one place where a record becomes a rule, or is refused.
    pub fn check(self, matters: u8, sheet: u8) -> Option<Rule>
        ensures { Checks matters sheet self result }
    {
        let sign = Sign::try_from(self.sign).ok()?;
        let sound = self.head < matters
            && names_only(self.yes, matters)
            && names_only(self.no, matters);
        sound.then_some(Rule {
            sheet,
            head: self.head,
            sign,
            yes: self.yes,
            no: self.no,
        })
    }
}

// Whether the set names matters below `matters` alone.
fn names_only(set: u16, matters: u8) -> bool
    ensures { result ≡ nat_lt set (2 ^ matters) }
{
    set <= all_matters(matters)
}
