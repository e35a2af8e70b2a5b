ghost use Rattle.std.specs.Prelude.{◌≡◌};
ghost use Rattle.racks.specs.Changing.{sheets_meaning, bare, begun, laid, withdrawn, beginnable, layable, withdrawable, MakesBare, Changes};

use crate::rack::Rack;
use crate::sheets::Sheets;
use rules::matters::may_have;
use rules::record::Record;
use rules::rule::{Rule, Shape};
use rules::table::{MOST_SHEETS, Table};

impl Sheets {
    // One matter, and no sheet.
    pub fn new() -> Sheets
        ensures { sheets_meaning result ≡ bare 1 }
    {
        Sheets {
            matters: 1,
            sheets: 0,
            table: Table::new(),
        }
    }

    // So many matters, and no sheet; none where a rack may not have so many.
    pub fn with_matters(matters: u8) -> Option<Sheets>
        ensures { MakesBare matters result }
    {
        if !may_have(matters) {
            return None;
        }
        Some(Sheets {
            matters,
            sheets: 0,
            table: Table::new(),
        })
    }

    // The calls below answer none where nothing is done. Which refusal that is, each rack that has the sheets says in its own words.

    // A new sheet on top, with no rule yet; none where the sheets are at their limit.
    pub fn begin(&mut self) -> Option<()>
        ensures { Changes beginnable begun (sheets_meaning self.old) result (sheets_meaning self.new) }
    {
        if usize::from(self.sheets) >= MOST_SHEETS {
            return None;
        }
        self.sheets += 1;
        Some(())
    }

    // One rule more on the top sheet; none where there is no sheet, the record is bad or the table full.
    pub fn lay(&mut self, record: Record) -> Option<()>
        ensures { Changes (λ m. layable m «record») (λ m. laid m «record») (sheets_meaning self.old) result (sheets_meaning self.new) }
    {
        let top = self.sheets.checked_sub(1)?;
        let rule = record.check(self.matters, top)?;
        self.table.push(rule).then_some(())
    }

    // The top sheet goes, with its rules; none where there is no sheet.
    pub fn withdraw(&mut self) -> Option<()>
        ensures { Changes withdrawable withdrawn (sheets_meaning self.old) result (sheets_meaning self.new) }
    {
        let top = self.sheets.checked_sub(1)?;
        self.table = Table::filtered(self.table.as_slice(), |rule| rule.sheet < top);
        self.sheets = top;
        Some(())
    }
}

impl Rack for Sheets {
    ghost meaning = { sheets_meaning };

    ghost kept = { λ x. x.kept };

    fn shape(&self) -> Shape {
        Shape {
            matters: self.matters,
            sheets: self.sheets,
            rules: self.table.len() as u16,
        }
    }

    fn rule(&self, place: u16) -> Option<Rule> {
        self.table.rule(place)
    }

    fn read(&self) -> Table {
        self.table
    }
}
