ghost use Rattle.std.specs.Prelude.{◌≡◌, ◌-◌, ◌^◌, ◌≤◌};
ghost use Rattle.rules.specs.Records.{allowed};

// The most matters that a rack may have: a set has a bit for each.
pub const MOST_MATTERS: usize = 16;

// Whether a rack may have so many matters. The one place where their number is refused.
pub fn may_have(matters: u8) -> bool
    ensures { result ≡ allowed matters }
{
    0 < matters && usize::from(matters) <= MOST_MATTERS
}

// The set of the first so many matters; past the most that a rack may have, of all of these.
pub fn all_matters(matters: u8) -> u16
    ensures few { matters ≤ 16 → result ≡ 2 ^ matters - 1 }
    ensures more { 16 ≤ matters → result ≡ 2 ^ 16 - 1 }
{
    if usize::from(matters) < MOST_MATTERS {
        (1 << matters) - 1
    } else {
        u16::MAX
    }
}
