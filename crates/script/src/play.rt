ghost use Rattle.std.specs.Prelude.{◌≡◌, true};
ghost use Rattle.kiosk.specs.Book.{in_session};
ghost use Rattle.kiosk.specs.Standing.{book_of};
ghost use Rattle.runs.specs.Purse.{Pursed};

use crate::words;
use kiosk::call::Call;
use kiosk::kiosk::Kiosk;
use kiosk::ticket::Ticket;
use laying::open_rack::OpenRack;
use laying::pocket::PocketRack;
use orders::position::Position;
use report::listing::{OUTPUT, PLACES};
use report::report::write_report;
use runs::replay::replay;
use runs::run::{Purse, Run, Start, Unstarted};
use std::alloc::{AllocError, Global};

// Sets a kiosk up on a rack, makes the calls, and says of the run what is wanted.
// The ticket in reserve, by which `end` can be made at every point, comes from a kiosk of its own.
pub fn play<R: OpenRack + Drop, F: FnOnce(&Run<R>) -> Result<String, AllocError>>(
    heap: Global,
    rack: R,
    calls: &[Call],
    say: F,
) -> Result<String, AllocError>
    requires { F.IsAlwaysCallable say }
{
    let mut home = Kiosk::new(PocketRack::new());
    let reserve = home.open().unwrap();
    let start = Start { rack, reserve };
    let mut list = [0; PLACES];
    match replay(heap, start, calls, &Position, PLACES, &mut list) {
        Ok((run, _)) => {
            let said = say(&run);
            close(run, home);
            said
        }
        Err(
            Unstarted {
                start: Start { rack: _, reserve },
                error,
            },
        ) => {
            shut(home, reserve);
            Err(error)
        }
    }
}

// What the last call answered.
pub fn last_answer<R: OpenRack>(heap: Global, run: &Run<R>) -> Result<String, AllocError> {
    match run.answers.last() {
        Some(answer) => words::answer(heap, answer),
        None => String::from_str(heap, "nothing was asked"),
    }
}

pub fn report<R: OpenRack>(heap: Global, run: &Run<R>) -> Result<String, AllocError> {
    let mut list = [0; PLACES];
    let mut bytes = [0; OUTPUT];
    match write_report(&run.kiosk, &Position, &mut list, &mut bytes) {
        Ok(len) => words::report(heap, &bytes[..len]),
        Err(fault) => words::refused(heap, fault),
    }
}

// Hands every ticket in: an open session's at its own kiosk, and the reserve where it came from.
fn close<R: OpenRack + Drop, S: OpenRack + Drop>(run: Run<R>, home: Kiosk<S>)
    requires purse { Pursed (book_of R.OpenRack.state run.kiosk) run.purse }
    requires open { in_session (book_of S.OpenRack.state home).slip ≡ true }
{
    let Run {
        kiosk,
        answers: _,
        purse: Purse { reserve, session },
        places: _,
        lists: _,
    } = run;
    match session {
        Some(ticket) => shut(kiosk, ticket),
        None => {
            let _ = kiosk.into_rack();
        }
    }
    shut(home, reserve);
}

// Ends the session that is open here, and puts the kiosk away.
fn shut<R: OpenRack + Drop>(mut kiosk: Kiosk<R>, ticket: Ticket)
    requires { in_session (book_of R.OpenRack.state kiosk).slip ≡ true }
{
    kiosk.end(ticket).unwrap();
    let _ = kiosk.into_rack();
}
