use crate::line::Line;
use evaluator::answer::{Reading, Ruling};
use kiosk::call::Call;
use rules::refusal::Refusal;
use runs::run::Answer;
use std::alloc::{AllocError, Global};
use std::fmt;

// A value in the words of a script.
#[derive(Drop)]
pub struct Said<T>(pub T);

// What a line asks for, by the word that it begins with.
impl fmt::Display for Line {
    fn fmt<W: fmt::Write>(&self, f: &mut fmt::Formatter<W>) -> fmt::Result {
        f.write_str(match self {
            Line::SetUp(_) => "set up",
            Line::Make(Call::Begin) => "begin",
            Line::Make(Call::Lay(_)) => "lay",
            Line::Make(Call::Withdraw) => "withdraw",
            Line::Make(Call::Open) => "open",
            Line::Make(Call::Fact(_, _)) => "fact",
            Line::Make(Call::End) => "end",
            Line::Make(Call::Outcomes) => "outcomes",
            Line::Report => "report",
            Line::Reading(_) => "reading",
            Line::Ruling(_) => "ruling",
        })
    }
}

// A call that answers no more than that it was made.
impl fmt::Display for Said<()> {
    fn fmt<W: fmt::Write>(&self, f: &mut fmt::Formatter<W>) -> fmt::Result {
        f.write_str("done")
    }
}

// How many outcomes there are, and each as a number.
impl fmt::Display for Said<&[u16]> {
    fn fmt<W: fmt::Write>(&self, f: &mut fmt::Formatter<W>) -> fmt::Result {
        let count = self.0.len();
        if count == 0 {
            return f.write_str("none");
        }
        write!(f, "{count} in all,")?;
        for outcome in self.0 {
            write!(f, " {outcome}")?;
        }
        Ok(())
    }
}

// A reading and a ruling by number and in words: their numbers are methods of their own, so one impl for both would first need a trait.
impl fmt::Display for Said<Reading> {
    fn fmt<W: fmt::Write>(&self, f: &mut fmt::Formatter<W>) -> fmt::Result {
        write!(f, "{}, {}", self.0.number(), self.0)
    }
}

impl fmt::Display for Said<Ruling> {
    fn fmt<W: fmt::Write>(&self, f: &mut fmt::Formatter<W>) -> fmt::Result {
        write!(f, "{}, {}", self.0.number(), self.0)
    }
}

// What was answered, or the refusal.
pub fn told<T: Drop, E: Refusal>(heap: Global, answer: Result<T, E>) -> Result<String, AllocError>
where
    Said<T>: fmt::Display,
{
    match answer {
        Ok(value) => Said(value).to_string(heap),
        Err(fault) => refused(heap, fault),
    }
}

pub fn refused<E: Refusal>(heap: Global, fault: E) -> Result<String, AllocError> {
    format!(in heap; "refused {}, {}", fault.number(), fault.layer())
}

// What a call answered.
pub fn answer(heap: Global, answer: &Answer) -> Result<String, AllocError> {
    match answer {
        Answer::Done(done) => told(heap, *done),
        Answer::Listed(counted, list) => {
            let list = list.as_slice();
            told(heap, counted.map(|count| &list[..count.min(list.len())]))
        }
    }
}

// The lines of a report, each set in below what is said.
pub fn report(heap: Global, bytes: &[u8]) -> Result<String, AllocError> {
    let text = String::from_utf8_lossy(heap, bytes)?;
    let lines = text.trim_end().replace(heap, "\n", "\n    ")?;
    format!(in heap; "\n    {lines}")
}
