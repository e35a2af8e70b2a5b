ghost use Rattle.std.specs.Prelude.{◌≡◌, ◌<◌, [], ◌∷◌, ◌++◌};
ghost use Rattle.arrayvec.specs.ArrayVec.{array_vec_len};

use crate::firing::{Firing, Firings};
use arrayvec::ArrayVec;

impl Firings {
    pub fn none() -> Firings
        ensures { result.items.items ≡ [] }
    {
        let items = ArrayVec::new();
        Firings { items }
    }

    pub fn push(&mut self, firing: Firing)
        requires room { array_vec_len self.old.items < 272 }
        requires head { firing.head < 16 }
        ensures { self.new.items.items ≡ self.old.items.items ++ firing ∷ [] }
    {
        self.items.push(firing);
    }
}
