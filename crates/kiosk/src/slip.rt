ghost use Rattle.std.specs.Prelude.{◌≡◌, ◌+◌, ◌<◌, ◌≤◌, [], ◌∷◌, ◌++◌, map, length};
ghost use Rattle.std.specs.Borrow.{sem, LendsIf};
ghost use Rattle.std.specs.List.{slice_get, IsItemAtMut};
ghost use Rattle.arrayvec.specs.ArrayVec.{with_item};
ghost use Rattle.rules.specs.Held.{held};
ghost use Rattle.kiosk.specs.contracts.slip.Slip.{the_row as slip-row};
ghost use Rattle.kiosk.specs.contracts.slip.Fact.{the_row as fact-row};
ghost use Rattle.kiosk.specs.Slip.{Finds, re_signed, fact_rule};

use arrayvec::ArrayVec;
use rules::matters::MOST_MATTERS;
use rules::rule::{Rule, Sign};
use rules::table::Table;

// The most facts that a slip holds: one on each matter.
const MOST_FACTS: usize = MOST_MATTERS;

// A fact of the slip: a matter with its sign.
#[derive(Clone, Copy, PartialEq, Eq, Debug, Default)]
pub struct Fact {
    pub matter: u8,
    pub sign: Sign,
}

// The table of a session's facts, with a place for each matter and no heap, so that no call can fail for want of memory.
#[derive(Drop)]
pub struct Slip {
    pub(crate) facts: ArrayVec<Fact, MOST_FACTS>,
}

impl Slip {
    pub(crate) fn new() -> Slip
        ensures { result.facts.items ≡ [] }
    {
        Slip {
            facts: ArrayVec::new(),
        }
    }

    pub(crate) fn len(&self) -> usize
        ensures value { result ≡ length self.now.facts.items }
        ensures fits { result ≤ 16 }
    {
        self.facts.len()
    }

    // The fact at a place, or none past the end.
    pub(crate) fn fact(&self, i: usize) -> Option<Fact>
        ensures { result ≡ slice_get self.now.facts.items i }
    {
        self.facts.get(i).copied()
    }

    // Where the fact on a matter lies.
    pub(crate) fn find(&self, matter: u8) -> Option<usize>
        ensures { Finds self.now.facts.items matter result }
    {
        self.facts.iter().position(|fact| fact.matter == matter)
    }

    // Lends the fact at a place, if there is one.
    pub(crate) fn lend(&mut self, i: usize) -> Option<&mut Fact>
        ensures* lends { sem 𝓛 (LendsIf slip-row fact-row self.entry result (λ w. record { facts = with_item self.old.facts i w }) self.old) }
        ensures item { IsItemAtMut self.old.facts.items i result }
    {
        self.facts.get_mut(i)
    }

    // Changes the sign of a fact where it lies.
    pub(crate) fn change(&mut self, i: usize, sign: Sign)
        ensures { self.new.facts.items ≡ re_signed self.old.facts.items i sign }
    {
        if let Some(fact) = self.lend(i) {
            fact.sign = sign;
        }
    }

    pub(crate) fn add(&mut self, fact: Fact)
        requires { length self.old.facts.items < 16 }
        ensures { self.new.facts.items ≡ self.old.facts.items ++ (fact ∷ []) }
    {
        self.facts.push(fact);
    }

    pub(crate) fn clear(&mut self)
        ensures { self.new.facts.items ≡ [] }
    {
        self.facts.clear();
    }

    // Adds the facts to a table, as rules of the sheet with this number.
    // A loop of its own, as the amended layer's is: a shared one would take a closure, with clauses longer than the loop; and after a
    // `for_each` a proof knows nothing of the table.
    pub(crate) fn append_to(&self, table: &mut Table, sheet: u8)
        requires { length (held table.old) + length self.now.facts.items ≤ 256 }
        ensures { held table.new ≡ held table.old ++ map (fact_rule sheet) self.now.facts.items }
    {
        for fact in self.facts.iter() {
            table.push(fact.on_sheet(sheet));
        }
    }
}

impl Fact {
    // The fact as a rule of the sheet with this number: its body is empty.
    pub(crate) fn on_sheet(self, sheet: u8) -> Rule
        ensures { result ≡ fact_rule sheet self }
    {
        Rule {
            sheet,
            head: self.matter,
            sign: self.sign,
            yes: 0,
            no: 0,
        }
    }
}
