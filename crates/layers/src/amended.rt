ghost use Rattle.std.specs.Prelude.{◌≡◌, ◌+◌, ◌<◌, ◌≤◌, true, ◌++◌, map, length, refl};
ghost use Rattle.rules.specs.Held.{held};
ghost use Rattle.racks.specs.Meaning.{shaped, Throughout};
ghost use Rattle.laying.specs.Pocketing.{pocket_meaning};
ghost use Rattle.layers.specs.Over.{own_places, fits as fitting, raised, shape_over, amended, stood};
ghost use Rattle.laying.proofs.Pocketed.{pocket_kept};
ghost use Rattle.layers.specs.OverLemmas.{over_kept};
ghost use Rattle.layers.specs.Amending.{over_grounded};

use laying::admission::admit;
use laying::fault::RackFault;
use laying::open_rack::OpenRack;
use laying::pocket::PocketRack;
use racks::rack::Rack;
use rules::record::Record;
use rules::rule::{Rule, Shape};
use rules::table::{MOST_RULES, MOST_SHEETS, Table};

const PLACES: usize = 32;

// Own sheets on any rack, in a pocket rack that counts its sheets from 0.
#[derive(Drop)]
pub struct Amended<R: Rack> {
    below: R,
    own: PocketRack,
}

impl<R: Rack> Amended<R> {
    // No own sheet yet.
    pub fn new(below: R) -> Amended<R>
        ensures means { amended (R.Rack.meaning result.below) (pocket_meaning result.own) ≡ R.Rack.meaning below }
        ensures fit { fitting (shaped (R.Rack.meaning result.below)) (shaped (pocket_meaning result.own)) ≡ true }
    {
        let mut own = PocketRack::new();
        // A rack has 1 to 16 matters, so this is not refused.
        own.set_up(below.shape().matters).unwrap();
        Amended { below, own }
    }

    // Empties own sheets that do not fit the rack below, and answers its shape.
    // No call leads to such sheets, but the type alone does not say so.
    fn settle(&mut self) -> Shape
        ensures shape { result ≡ shaped (R.Rack.meaning self.new.below) }
        ensures fit { fitting (shaped (R.Rack.meaning self.new.below)) (shaped (pocket_meaning self.new.own)) ≡ true }
        ensures same { stood (R.Rack.meaning self.new.below) (pocket_meaning self.new.own) ≡ stood (R.Rack.meaning self.old.below) (pocket_meaning self.old.own) }
    {
        let below = self.below.shape();
        if !fits(below, self.own.shape()) {
            self.own.set_up(below.matters).unwrap();
        }
        below
    }
}

impl<R: Rack> Rack for Amended<R> {
    ghost meaning = { λ p. amended (R.Rack.meaning p.below) (pocket_meaning p.own) };

    ghost kept = { λ x. over_kept _ (R.Rack.meaning x.below) (pocket_meaning x.own) (R.Rack.kept x.below) (pocket_kept x.own) refl };

    fn shape(&self) -> Shape {
        on_top(self.below.shape(), self.own.shape())
    }

    fn rule(&self, place: u16) -> Option<Rule> {
        self.read().rule(place)
    }

    fn read(&self) -> Table {
        self.survey().1
    }

    fn survey(&self) -> (Shape, Table) {
        let (below, mut table) = self.below.survey();
        let own = self.own.shape();
        if fits(below, own) {
            append(&mut table, self.own.read().as_slice(), below.sheets);
        }
        (on_top(below, own), table)
    }
}

impl<R: Rack> OpenRack for Amended<R> {
    ghost state = { λ p. stood (R.Rack.meaning p.below) (pocket_meaning p.own) };

    ghost same_meaning = { λ x. refl };

    ghost grounded = { λ x. over_grounded (R.Rack.meaning x.below) (pocket_meaning x.own) (R.Rack.kept x.below) _ refl };

    fn begin(&mut self) -> Result<(), RackFault> {
        let below = self.settle();
        if usize::from(below.sheets) + usize::from(self.own.shape().sheets) >= MOST_SHEETS {
            return Err(RackFault::TooManySheets);
        }
        self.own.begin()
    }

    fn lay(&mut self, record: Record) -> Result<(), RackFault> {
        let below = self.settle();
        admit(self.own.shape(), places(below), record)?;
        self.own.lay(record)
    }

    fn withdraw(&mut self) -> Result<(), RackFault> {
        self.settle();
        self.own.withdraw()
    }
}

// The shape of own sheets on a rack; those that do not fit count as none.
fn on_top(below: Shape, own: Shape) -> Shape
    ensures { result ≡ shape_over (fitting below own) below own }
{
    if !fits(below, own) {
        return below;
    }
    Shape {
        matters: below.matters,
        sheets: below.sheets + own.sheets,
        rules: below.rules + own.rules,
    }
}

// Adds own rules to those below, their sheets counted from `floor` on.
// A loop of its own, as the slip's is: a shared one would take a closure, with clauses longer than the loop; and after a `for_each` a
// proof knows nothing of the table.
fn append(table: &mut Table, own: &[Rule], floor: u8)
    requires room { length (held table.old) + length own.now ≤ 256 }
    requires low { Throughout (λ r. floor + r.sheet < 256) own.now }
    ensures { held table.new ≡ held table.old ++ map (raised floor) own.now }
{
    for rule in own {
        table.push(Rule {
            sheet: floor + rule.sheet,
            ..*rule
        });
    }
}

// Whether own sheets of this shape can stand on a rack of that shape.
fn fits(below: Shape, own: Shape) -> bool
    ensures { result ≡ fitting below own }
{
    own.matters == below.matters
        && usize::from(below.sheets) + usize::from(own.sheets) <= MOST_SHEETS
        && usize::from(own.rules) <= places(below)
}

fn places(below: Shape) -> usize
    ensures { result ≡ own_places below }
{
    MOST_RULES
        .saturating_sub(usize::from(below.rules))
        .min(PLACES)
}
