ghost use Rattle.std.specs.Prelude.{◌≤◌};
ghost use Rattle.kiosk.specs.Slip.{Known, Apart, matters_in};

use crate::slip::Slip;

pub mod calls;
pub mod reads;

// A kiosk on an open rack. While a session is open, `session` is the rack's number of matters and the slip is its top sheet;
// without one the slip is empty. The facts are apart here and not in the slip, since the slip lends them one at a time.
pub struct Kiosk<R> {
    rack: R,
    session: Option<u8>,
    slip: Slip,
    ghost few: { matters_in session ≤ 16 },
    ghost known: { Known (matters_in session) slip.facts.items },
    ghost apart: { Apart slip.facts.items },
}
