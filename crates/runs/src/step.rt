ghost use Rattle.std.specs.Prelude.{◌≡◌, ℕ, ◌-◌, ◌≤◌, None, vec_len};
ghost use Rattle.kiosk.specs.Book.{step, Does};
ghost use Rattle.kiosk.specs.Standing.{book_of};
ghost use Rattle.kiosk.specs.declared.call.Call.TheVariants.{Open as OpenCall, End as EndCall};
ghost use Rattle.runs.specs.Purse.{Pursed, Stocked};
ghost use Rattle.runs.specs.Running.{Answers, ListedInto, asks, tally};

use crate::run::{Answer, Purse};
use evaluator::outcomes::outcomes;
use kiosk::call::Call;
use kiosk::fault::KioskFault;
use kiosk::kiosk::Kiosk;
use kiosk::ticket::{Returned, Ticket};
use laying::open_rack::OpenRack;
use orders::order::Order;
use racks::rack::Rack;

impl Purse {
    // The reserve alone.
    pub(crate) fn new(reserve: Ticket) -> Purse
        ensures reserve { result.reserve ≡ reserve }
        ensures session { result.session ≡ None }
    {
        Purse {
            reserve,
            session: None,
        }
    }

    // Makes one call of a kiosk; a listing takes one of the lists. The purse is handed on by value, since a ticket in hand cannot be
    // let go, not even for another. What is large is lent, so that a call copies nothing.
    pub(crate) fn perform<R: OpenRack, O: Order>(
        self,
        kiosk: &mut Kiosk<R>,
        lists: &mut Vec<Vec<u16>>,
        call: Call,
        order: &O,
    ) -> (Purse, Answer)
        requires purse { Pursed (book_of R.OpenRack.state kiosk.old) self }
        requires stock { tally (asks call) ≤ vec_len lists.old }
        ensures answer { (places : ℕ) → Stocked places (tally (asks call)) lists.old → Answers (O.Order.over order.now) places (book_of R.OpenRack.state kiosk.old) call result.1 }
        ensures book { book_of R.OpenRack.state kiosk.new ≡ (step (book_of R.OpenRack.state kiosk.old) call).book }
        ensures purse { Pursed (book_of R.OpenRack.state kiosk.new) result.0 }
        ensures stock { (places : ℕ) → Stocked places (tally (asks call)) lists.old → Stocked places (vec_len lists.old - tally (asks call)) lists.new }
    {
        match call {
            Call::Begin => (self, Answer::Done(kiosk.begin())),
            Call::Lay(rule) => (self, Answer::Done(kiosk.lay(rule))),
            Call::Withdraw => (self, Answer::Done(kiosk.withdraw())),
            Call::Open => {
                let (purse, opened) = self.open(kiosk);
                (purse, Answer::Done(opened))
            }
            Call::Fact(matter, sign) => (self, Answer::Done(kiosk.fact(matter, sign))),
            Call::End => {
                let (purse, ended) = self.end(kiosk);
                (purse, Answer::Done(ended))
            }
            Call::Outcomes => (self, listed(kiosk, order, lists.take_last())),
        }
    }

    // Opens a session and keeps its ticket.
    fn open<R: OpenRack>(self, kiosk: &mut Kiosk<R>) -> (Purse, Result<(), KioskFault>)
        requires { Pursed (book_of R.OpenRack.state kiosk.old) self }
        ensures book { Does (step (book_of R.OpenRack.state kiosk.old) OpenCall) result.1 (book_of R.OpenRack.state kiosk.new) }
        ensures purse { Pursed (book_of R.OpenRack.state kiosk.new) result.0 }
    {
        let Purse { reserve, session } = self;
        match (kiosk.open(), session) {
            (Ok(ticket), None) => (
                Purse {
                    reserve,
                    session: Some(ticket),
                },
                Ok(()),
            ),
            (Err(fault), session) => (Purse { reserve, session }, Err(fault)),
            // With a session's ticket in hand a session is open, and opening one more is refused.
            (Ok(_), Some(_)) => unreachable!(),
        }
    }

    // Hands in the session's ticket, or else the reserve, which then comes back: no session is open for it to end.
    fn end<R: OpenRack>(self, kiosk: &mut Kiosk<R>) -> (Purse, Result<(), KioskFault>)
        requires { Pursed (book_of R.OpenRack.state kiosk.old) self }
        ensures book { Does (step (book_of R.OpenRack.state kiosk.old) EndCall) result.1 (book_of R.OpenRack.state kiosk.new) }
        ensures purse { Pursed (book_of R.OpenRack.state kiosk.new) result.0 }
    {
        let Purse { reserve, session } = self;
        match session {
            Some(ticket) => match kiosk.end(ticket) {
                Ok(()) => (Purse::new(reserve), Ok(())),
                Err(_) => unreachable!(),
            },
            None => match kiosk.end(reserve) {
                Ok(()) => unreachable!(),
                Err(Returned { fault, ticket }) => (Purse::new(ticket), Err(fault)),
            },
        }
    }
}

// Lists into the list that is given.
fn listed<R: OpenRack, O: Order>(kiosk: &Kiosk<R>, order: &O, mut list: Vec<u16>) -> Answer
    ensures { ListedInto (O.Order.over order.now) (book_of R.OpenRack.state kiosk.now) list.items result }
{
    let counted = outcomes(kiosk, order, list.as_mut_slice());
    Answer::Listed(counted, list)
}
