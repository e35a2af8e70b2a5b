use crate::fault::KioskFault;

// The token of an open session. It is never let go: `end` takes it, at this kiosk or another.
pub struct Ticket {
    seal: (),
}

// A refused end: why, and the ticket again.
pub struct Returned {
    pub fault: KioskFault,
    pub ticket: Ticket,
}

impl Ticket {
    pub(crate) fn issue() -> Ticket {
        Ticket { seal: () }
    }

    pub(crate) fn spend(self) {
        let Ticket { seal: _ } = self;
    }
}
