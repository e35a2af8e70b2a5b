ghost use Rattle.std.specs.Prelude.{◌≡◌, ◌≤◌, cond, length};
ghost use Rattle.report.specs.Pages.{Adds, Fits};
ghost use Rattle.report.specs.Text.{cells, digit, heading, letter, listing, reading, text};
ghost use Rattle.report.specs.Writing.{Writes};

use crate::page::Page;
use itoa::Buffer;
use rules::matters::MOST_MATTERS;
use rules::rule::LiteralSet;
use rules::sets::has;
use std::array;

// What a report says: under the order of this code there are these outcomes and this model, on so many matters.
#[derive(Drop)]
pub(crate) struct Text<'a> {
    pub(crate) code: u8,
    pub(crate) matters: u8,
    pub(crate) outcomes: &'a [u16],
    pub(crate) model: LiteralSet,
    ghost few: { matters ≤ 16 },
    ghost short: { length outcomes.now ≤ 65536 },
}

impl Text<'_> {
    // Writes the text to the front of `out` and answers its length, or changes nothing where it does not fit.
    pub(crate) fn write(&self, out: &mut [u8]) -> Option<usize>
        ensures { Writes (text self.now.code self.now.matters self.now.outcomes.now self.now.model) out.old out.new result }
    {
        if out.len() < self.len() {
            return None;
        }
        let mut page = Page::new(out);
        self.put_heading(&mut page);
        self.put_outcomes(&mut page);
        page.put_line(&letters(self.model)[..usize::from(self.matters)]);
        Some(page.len())
    }

    fn len(&self) -> usize
        ensures { result ≡ length (text self.now.code self.now.matters self.now.outcomes.now self.now.model) }
    {
        let code_len = Buffer::new().format(self.code).len();
        let count_len = Buffer::new().format(self.outcomes.len()).len();
        let row_len = usize::from(self.matters) + 1;
        code_len + 1 + count_len + 1 + (self.outcomes.len() + 1) * row_len
    }

    fn put_heading(&self, page: &mut Page<'_>)
        requires { Fits page.old (heading self.now.code (length self.now.outcomes.now)) }
        ensures { Adds page.old (heading self.now.code (length self.now.outcomes.now)) page.new }
    {
        page.put_number(self.code);
        page.put(b" ");
        page.put_number(self.outcomes.len());
        page.put(b"\n");
    }

    fn put_outcomes(&self, page: &mut Page<'_>)
        requires { Fits page.old (listing self.now.matters self.now.outcomes.now) }
        ensures { Adds page.old (listing self.now.matters self.now.outcomes.now) page.new }
    {
        for outcome in self.outcomes {
            page.put_line(&digits(*outcome)[..usize::from(self.matters)]);
        }
    }
}

// The digit of each matter: whether it is in the outcome.
fn digits(outcome: u16) -> [u8; MOST_MATTERS]
    ensures { result ≡ cells (digit outcome) 16 }
{
    array::from_fn(|matter| digit(has(outcome.into(), matter as u8)))
}

// The letter of each matter: which of its signs are in the model.
fn letters(model: LiteralSet) -> [u8; MOST_MATTERS]
    ensures { result ≡ cells (letter model) 16 }
{
    let (yes, no) = model;
    array::from_fn(|matter| letter(has(yes.into(), matter as u8), has(no.into(), matter as u8)))
}

fn digit(held: bool) -> u8
    ensures { result ≡ cond held 49 48 }
{
    if held { b'1' } else { b'0' }
}

// By the two tests, as `Reading` is made by the evaluator alone, of a rack.
fn letter(yes: bool, no: bool) -> u8
    ensures { result ≡ reading yes no }
{
    match (yes, no) {
        (false, false) => b'u',
        (true, false) => b't',
        (false, true) => b'f',
        (true, true) => b'b',
    }
}
