ghost use Rattle.std.specs.Prelude.{◌≡◌, [], true, false, IfOk, IfErr, Some, None, OnOk, OnErr};
ghost use Rattle.kiosk.specs.Book.{step, Does, bare, ended, in_session};
ghost use Rattle.kiosk.specs.Standing.{book_of, start};
ghost use Rattle.racks.specs.Meaning.{shaped};
ghost use Rattle.kiosk.specs.declared.fault.KioskFault.TheVariants.{SessionOpen};
ghost use Rattle.kiosk.specs.declared.call.Call.TheVariants.{Begin as BeginCall, Lay as LayCall, Withdraw as WithdrawCall, Open as OpenCall, Fact as FactCall, End as EndCall};

use crate::fault::KioskFault;
use crate::kiosk::Kiosk;
use crate::slip::{Fact, Slip};
use crate::ticket::{Returned, Ticket};
use laying::open_rack::OpenRack;
use racks::rack::Rack;
use rules::record::Record;
use rules::rule::Shape;
use rules::table::{MOST_RULES, MOST_SHEETS};

impl<R: OpenRack> Kiosk<R> {
    // Sets a kiosk up on a rack, without a session.
    pub fn new(rack: R) -> Kiosk<R>
        ensures { book_of R.OpenRack.state result ≡ start (R.OpenRack.state rack) }
    {
        Kiosk {
            rack,
            session: None,
            slip: Slip::new(),
        }
    }

    // Hands the rack back.
    pub fn into_rack(self) -> R
        ensures { result ≡ self.rack }
    {
        let Kiosk {
            rack,
            session: _,
            slip: _,
        } = self;
        rack
    }

    // A new sheet on the rack below.
    pub fn begin(&mut self) -> Result<(), KioskFault>
        ensures { Does (step (book_of R.OpenRack.state self.old) BeginCall) result (book_of R.OpenRack.state self.new) }
    {
        self.idle()?;
        self.rack.begin()?;
        Ok(())
    }

    // One rule more on the top sheet of the rack below.
    pub fn lay(&mut self, record: Record) -> Result<(), KioskFault>
        ensures { Does (step (book_of R.OpenRack.state self.old) (LayCall «record»)) result (book_of R.OpenRack.state self.new) }
    {
        self.idle()?;
        self.rack.lay(record)?;
        Ok(())
    }

    // The top sheet of the rack below goes.
    pub fn withdraw(&mut self) -> Result<(), KioskFault>
        ensures { Does (step (book_of R.OpenRack.state self.old) WithdrawCall) result (book_of R.OpenRack.state self.new) }
    {
        self.idle()?;
        self.rack.withdraw()?;
        Ok(())
    }

    // Opens a session with an empty slip, and hands out its ticket.
    pub fn open(&mut self) -> Result<Ticket, KioskFault>
        ensures book { Does (step (book_of R.OpenRack.state self.old) OpenCall) (bare result) (book_of R.OpenRack.state self.new) }
        ensures slip { OnOk result ((book_of R.OpenRack.state self.new).slip ≡ Some []) }
    {
        let below = self.idle()?;
        if usize::from(below.sheets) >= MOST_SHEETS {
            return Err(KioskFault::NoRoom);
        }
        self.session = Some(below.matters);
        Ok(Ticket::issue())
    }

    // Writes a fact on the slip. A second fact on a matter changes the sign of the first where it lies.
    // The sign is a plain number, since one above 1 is answered by a refusal.
    pub fn fact(&mut self, matter: u8, sign: u8) -> Result<(), KioskFault>
        ensures { Does (step (book_of R.OpenRack.state self.old) (FactCall matter sign)) result (book_of R.OpenRack.state self.new) }
    {
        let below = self.rack.shape();
        if !self.seated(below) {
            return Err(KioskFault::NotInSession);
        }
        let record = Record {
            head: matter,
            sign,
            yes: 0,
            no: 0,
        };
        let rule = record
            .check(below.matters, below.sheets)
            .ok_or(KioskFault::BadFact)?;
        if let Some(i) = self.slip.find(matter) {
            self.slip.change(i, rule.sign);
            return Ok(());
        }
        if usize::from(below.rules) + self.slip.len() >= MOST_RULES {
            return Err(KioskFault::RulesFull);
        }
        self.slip.add(Fact {
            matter,
            sign: rule.sign,
        });
        Ok(())
    }

    // Ends the session: the slip goes, and the ticket with it. Where no session is open here, the ticket comes back.
    pub fn end(&mut self, ticket: Ticket) -> Result<(), Returned>
        ensures book { Does (step (book_of R.OpenRack.state self.old) EndCall) (ended result) (book_of R.OpenRack.state self.new) }
        ensures cleared { OnOk result (self.new.slip.facts.items ≡ []) }
        ensures back { IfErr result (λ e. e.ticket ≡ ticket) }
    {
        if !self.seated(self.rack.shape()) {
            return Err(Returned {
                fault: KioskFault::NoSessionHere,
                ticket,
            });
        }
        ticket.spend();
        self.close();
        Ok(())
    }

    // The shape of the rack, where no session is open on it. A slip that does not fit the rack counts as none, and goes.
    fn idle(&mut self) -> Result<Shape, KioskFault>
        ensures free { OnOk result (in_session (book_of R.OpenRack.state self.old).slip ≡ false) }
        ensures shape { IfOk result (λ s. s ≡ shaped (R.OpenRack.state self.old.rack).meaning) }
        ensures closed { OnOk result (self.new.session ≡ None) }
        ensures empty { OnOk result (self.new.slip.facts.items ≡ []) }
        ensures rack { self.new.rack ≡ self.old.rack }
        ensures busy { OnErr result (in_session (book_of R.OpenRack.state self.old).slip ≡ true) }
        ensures fault { IfErr result (λ e. e ≡ SessionOpen) }
        ensures kept { OnErr result (self.new ≡ self.old) }
    {
        let below = self.rack.shape();
        if self.seated(below) {
            return Err(KioskFault::SessionOpen);
        }
        self.close();
        Ok(below)
    }

    // Leaves no session and an empty slip.
    fn close(&mut self)
        ensures session { self.new.session ≡ None }
        ensures slip { self.new.slip.facts.items ≡ [] }
        ensures rack { self.new.rack ≡ self.old.rack }
    {
        self.session = None;
        self.slip.clear();
    }
}
