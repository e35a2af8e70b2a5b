use evaluator::answer::EvaluatorFault;
use kiosk::fault::KioskFault;
use kiosk::kiosk::Kiosk;
use kiosk::ticket::Ticket;
use laying::open_rack::OpenRack;
use std::alloc::AllocError;

// What one call answered. A listing keeps its whole list beside the count: the law speaks of the places past it too.
#[derive(Drop)]
pub enum Answer {
    Done(Result<(), KioskFault>),
    Listed(Result<usize, EvaluatorFault>, Vec<u16>),
}

// What a run starts from: a rack, and a ticket of another kiosk in reserve, so that `end` can be made at any point.
pub struct Start<R: OpenRack> {
    pub rack: R,
    pub reserve: Ticket,
}

// A run that found no memory for its answers: its start comes back whole.
pub struct Unstarted<R: OpenRack> {
    pub start: Start<R>,
    pub error: AllocError,
}

// The tickets in hand: the reserve, and an open session's.
pub struct Purse {
    pub reserve: Ticket,
    pub session: Option<Ticket>,
}

// A kiosk with the answers that it gave so far and the tickets in hand.
// `lists` are blank, of `places` places each, for the listings to come.
// The fields are public, so what they owe one another is asked by `Pursed` and `Stocked`, and is no invariant.
pub struct Run<R: OpenRack> {
    pub kiosk: Kiosk<R>,
    pub answers: Vec<Answer>,
    pub purse: Purse,
    pub places: usize,
    pub lists: Vec<Vec<u16>>,
}
