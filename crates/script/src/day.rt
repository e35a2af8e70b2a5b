use crate::line::{Line, read};
use crate::play::{last_answer, play, report};
use crate::words::told;
use evaluator::matter::{reading, ruling};
use kiosk::call::Call;
use laying::pocket::PocketRack;
use orders::position::Position;
use runs::run::Run;
use std::alloc::{AllocError, Global};

// A kiosk's day so far: the pocket rack that it was last set up on, and the calls since.
#[derive(Drop)]
pub struct Day {
    rack: PocketRack,
    calls: Vec<Call>,
}

// Plays a script, a call a line, and says what each line did. A line that cannot be read changes nothing.
pub fn play_script(heap: Global, script: &[u8]) -> Result<String, AllocError> {
    let mut day = Day {
        rack: PocketRack::new(),
        calls: Vec::new(heap),
    };
    let mut text = String::new(heap);
    for (number, line) in (1usize..).zip(script.split(|byte| *byte == b'\n')) {
        match read(line) {
            Ok(None) => (),
            Ok(Some(asked)) => {
                let said = day.take(heap, asked)?;
                writeln!(text, "line {number}: {asked}: {said}")?;
            }
            Err(help) => writeln!(text, "line {number}: cannot be read: {help}")?,
        }
    }
    Ok(text)
}

impl Day {
    // Does what a line asks for, and says how it went.
    fn take(&mut self, heap: Global, line: Line) -> Result<String, AllocError> {
        match line {
            Line::SetUp(matters) => self.set_up(heap, matters),
            Line::Make(call) => {
                self.calls.push(call)?;
                self.ask(heap, |run| last_answer(heap, run))
            }
            Line::Report => self.ask(heap, |run| report(heap, run)),
            Line::Reading(matter) => self.ask(heap, |run| {
                told(heap, reading(&run.kiosk, &Position, matter))
            }),
            Line::Ruling(matter) => self.ask(heap, |run| {
                told(heap, ruling(&run.kiosk, &Position, matter))
            }),
        }
    }

    // Plays the day again, and says of the run what is wanted.
    fn ask<F: FnOnce(&Run<PocketRack>) -> Result<String, AllocError>>(
        &self,
        heap: Global,
        say: F,
    ) -> Result<String, AllocError>
        requires { F.IsAlwaysCallable say }
    {
        play(heap, self.rack, &self.calls, say)
    }

    // A new kiosk on an empty rack; a refusal keeps the old one.
    fn set_up(&mut self, heap: Global, matters: u8) -> Result<String, AllocError> {
        let done = self.rack.set_up(matters);
        if done.is_ok() {
            self.calls.clear();
        }
        told(heap, done)
    }
}
