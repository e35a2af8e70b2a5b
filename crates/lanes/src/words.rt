ghost use Rattle.std.specs.Prelude.{ℕ, ◌<◌, length, slice_index};
ghost use Rattle.rules.specs.Semantics.{Mem};
ghost use Rattle.steps.specs.Parts.{SetOf};

use crate::members::members_of;

// The lanes of some of the chosen words.
pub fn any_of(words: &[u64], chosen: u32) -> u64
    requires { (j : ℕ) → Mem j chosen → j < length words.now }
    ensures { SetOf result (λ l. (j : ℕ) × Mem j chosen × Mem l (slice_index words.now j)) }
{
    members_of(chosen).fold(0, |lanes, j| lanes | words[j])
}

// The lanes of all the chosen words.
pub fn all_of(words: &[u64], chosen: u32) -> u64
    requires { (j : ℕ) → Mem j chosen → j < length words.now }
    ensures { SetOf result (λ l. (l < 64) × ((j : ℕ) → Mem j chosen → Mem l (slice_index words.now j))) }
{
    members_of(chosen).fold(u64::MAX, |lanes, j| lanes & words[j])
}
