ghost use Rattle.std.specs.Prelude.{ℕ, ◌+◌, ◌<◌, ◌≤◌, List, length};
ghost use Rattle.rules.specs.declared.rule.Rule.{Rule as SomeRule};
ghost use Rattle.rules.specs.Semantics.{LiteralSet as Literals, Overruling};
ghost use Rattle.arrayvec.specs.ArrayVec.{array_vec_len};
ghost use Rattle.lanes.specs.Contesting.{Hears};
ghost use Rattle.lanes.specs.Founding.{HoldingTo};

use crate::contest::Contest;
use crate::firing::{Firing, Firings};

impl Firings {
    // Enters what the rules about a matter give in these lanes: its default, and each rule that is true there and not rejected.
    pub fn enter(&mut self, matter: u8, contest: &Contest, lanes: u64)
        requires room { array_vec_len self.old.items + length contest.now.rules.now < 272 }
        requires matter { matter < 16 }
        ensures few { array_vec_len self.new.items ≤ array_vec_len self.old.items + length contest.now.rules.now + 1 }
        ensures holds { (Q : List SomeRule) (over : Overruling) (n : ℕ) (X : ℕ → Literals) → Hears Q over X matter contest.now → matter < n → HoldingTo Q over n X lanes matter self.old.items.items → HoldingTo Q over n X lanes (matter + 1) self.new.items.items }
    {
        self.push(Firing {
            head: matter,
            needs: 0,
            lanes: lanes & contest.unclaimed(),
        });
        for r in contest.rules {
            let live = lanes & contest.live(*r);
            if live != 0 {
                self.push(Firing {
                    head: matter,
                    needs: r.yes | r.no,
                    lanes: live,
                });
            }
        }
    }
}
