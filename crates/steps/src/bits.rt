ghost use Rattle.std.specs.Prelude.{◌≡◌, ℕ, ◌^◌, ◌<◌, ◌≤◌, if◌then◌else◌, Decides, bit_or};
ghost use Rattle.rules.specs.Semantics.{Mem, member};

// Whether some sheet is in both sets.
pub fn meet(x: u32, y: u32) -> bool
    ensures { Decides result ((j : ℕ) × Mem j x × Mem j y) }
{
    x & y != 0
}

// The numbers below `limit` that are wanted, as a set.
pub fn those<F: Fn(u8) -> bool>(limit: u8, wanted: F) -> u32
    requires fits { limit ≤ 32 }
    requires callable { (a : ℕ) → a < limit → F.pre wanted a }
    ensures below { result < 2 ^ limit }
    ensures each { (a : ℕ) → a < limit → F.post wanted a (member a result) }
{
    let mut set = 0;
    for a in 0..limit {
        if wanted(a) {
            set |= 1 << a;
        }
    }
    set
}

pub fn with_matter(set: u16, a: u8, wanted: bool) -> u16
    requires { a < 16 }
    ensures { result ≡ (if wanted then bit_or set (2 ^ a) else set) }
{
    if wanted { set | (1 << a) } else { set }
}
