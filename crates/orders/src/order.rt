ghost use Rattle.std.specs.Prelude.{◌≡◌, ℕ, ◌<◌, ◌≤◌, Bool};
ghost use Rattle.rules.specs.Semantics.{Total};

// An order of sheets: one question, and asking changes nothing.
pub trait Order {
    // The code by which a report names the order, 1 to 255.
    const CODE: u8;

    ghost CODE: { ℕ };

    ghost over: { Self → ℕ → ℕ → Bool };

    // Whether sheet `j` overrules sheet `i`.
    fn overrules(&self, j: u8, i: u8) -> bool
        ensures { result ≡ over self.now j i };

    ghost coded: { (0 < CODE) × (CODE ≤ 255) };

    // Of any two sheets, one at least overrules the other. Nothing else is asked: overruling need not pass on.
    ghost total: { (x : Self) → Total (over x) };
}
