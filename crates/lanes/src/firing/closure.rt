ghost use Rattle.std.specs.Prelude.{◌≡◌, ◌<◌, replicate};
ghost use Rattle.lanes.specs.Firing.{Rounded, Reached, Fired};
ghost use Rattle.arrayvec.specs.ArrayVec.{array_vec_len};

use crate::firing::{Firing, Firings, Reach};
use crate::words::all_of;
use rules::matters::MOST_MATTERS;

impl Firings {
    // What is reached in the end.
    pub fn reach(&self) -> Reach
        ensures { Reached self.now.items.items result.words }
    {
        let mut reach = Reach::nothing();
        'grow: loop {
            let more = self.round(reach);
            if more == reach {
                break 'grow reach;
            }
            reach = more;
        }
    }

    fn round(&self, reach: Reach) -> Reach
        ensures { Rounded self.now.items.items (array_vec_len self.now.items) reach.words result.words }
    {
        let mut more = reach;
        for firing in self.items.as_slice() {
            more = more.with(*firing);
        }
        more
    }
}

impl Reach {
    fn nothing() -> Reach
        ensures { result.words ≡ replicate 16 0 }
    {
        Reach {
            words: [0; MOST_MATTERS],
        }
    }

    // With the head of the firing in the lanes in which all that it needs is reached.
    fn with(self, firing: Firing) -> Reach
        requires { firing.head < 16 }
        ensures { Fired firing self.words result.words }
    {
        let met = all_of(&self.words, firing.needs as u32);
        let Reach { mut words } = self;
        words[firing.head as usize] |= firing.lanes & met;
        Reach { words }
    }
}
