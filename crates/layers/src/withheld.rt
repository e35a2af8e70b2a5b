ghost use Rattle.std.specs.Prelude.{◌≡◌};
ghost use Rattle.layers.specs.Showing.{showing, off_sheet};
ghost use Rattle.layers.specs.Shown.{showing_kept};

use crate::showing::show;
use laying::sifting::Choice;
use racks::rack::Rack;
use rules::rule::{Rule, Shape};
use rules::table::Table;

// A rack shown without the rules of one sheet, which stays as an empty one.
#[derive(Drop)]
pub struct Withheld<R: Rack> {
    below: R,
    sheet: u8,
}

impl<R: Rack> Withheld<R> {
    // The number of no sheet withholds nothing.
    pub fn new(below: R, sheet: u8) -> Withheld<R>
        ensures { showing (off_sheet result.sheet) (R.Rack.meaning result.below) ≡ showing (off_sheet sheet) (R.Rack.meaning below) }
    {
        Withheld { below, sheet }
    }
}

// Every answer is from one survey of the rack below.
impl<R: Rack> Rack for Withheld<R> {
    ghost meaning = { λ p. showing (off_sheet p.sheet) (R.Rack.meaning p.below) };

    ghost kept = { λ x. showing_kept (off_sheet x.sheet) (R.Rack.meaning x.below) (R.Rack.kept x.below) };

    fn shape(&self) -> Shape {
        self.survey().0
    }

    fn rule(&self, place: u16) -> Option<Rule> {
        self.read().rule(place)
    }

    fn read(&self) -> Table {
        self.survey().1
    }

    fn survey(&self) -> (Shape, Table) {
        show(self.below.survey(), &Off(self.sheet))
    }
}

// The rules that are off a sheet.
#[derive(Clone, Copy)]
struct Off(u8);

impl Choice for Off {
    ghost chosen = { λ x. off_sheet x.0 };

    fn takes(&self, rule: Rule) -> bool {
        rule.sheet != self.0
    }
}
