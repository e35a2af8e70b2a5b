ghost use Rattle.std.specs.Prelude.{◌≡◌, length};
ghost use Rattle.kiosk.specs.Standing.{kiosk_meaning, seated, topped_shape};
ghost use Rattle.kiosk.specs.Shown.{kiosk_kept};

use crate::kiosk::Kiosk;
use laying::open_rack::OpenRack;
use racks::rack::Rack;
use rules::rule::{Rule, Shape};
use rules::table::{MOST_RULES, MOST_SHEETS, Table};

impl<R: OpenRack> Kiosk<R> {
    // Whether a session is open over a rack of this shape. A slip that does not fit it counts as none.
    pub(super) fn seated(&self, below: Shape) -> bool
        ensures { result ≡ seated below self.now.session self.now.slip.facts.items }
    {
        self.session == Some(below.matters)
            && usize::from(below.sheets) < MOST_SHEETS
            && usize::from(below.rules) + self.slip.len() <= MOST_RULES
    }

    // The kiosk's shape over a rack of this shape.
    fn shape_over(&self, below: Shape) -> Shape
        ensures { result ≡ topped_shape (seated below self.now.session self.now.slip.facts.items) below (length self.now.slip.facts.items) }
    {
        if !self.seated(below) {
            return below;
        }
        Shape {
            matters: below.matters,
            sheets: below.sheets + 1,
            rules: below.rules + self.slip.len() as u16,
        }
    }
}

// A kiosk is a rack: the rack below, and in a session the slip as one more sheet on top.
impl<R: OpenRack> Rack for Kiosk<R> {
    ghost meaning = { kiosk_meaning R.Rack.meaning };

    ghost kept = { λ x. kiosk_kept R.Rack.meaning x (R.Rack.kept x.rack) };

    fn shape(&self) -> Shape {
        self.shape_over(self.rack.shape())
    }

    fn rule(&self, place: u16) -> Option<Rule> {
        let below = self.rack.shape();
        if place < below.rules {
            return self.rack.rule(place);
        }
        if !self.seated(below) {
            return None;
        }
        let fact = self.slip.fact(usize::from(place - below.rules))?;
        Some(fact.on_sheet(below.sheets))
    }

    fn read(&self) -> Table {
        self.survey().1
    }

    fn survey(&self) -> (Shape, Table) {
        let (below, mut table) = self.rack.survey();
        if self.seated(below) {
            self.slip.append_to(&mut table, below.sheets);
        }
        (self.shape_over(below), table)
    }
}
