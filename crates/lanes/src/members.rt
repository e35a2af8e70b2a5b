ghost use Rattle.std.specs.Prelude.{◌≡◌};
ghost use Rattle.std.specs.Iterator.{YieldsFirst, item_count};
ghost use Rattle.lanes.specs.Members.{member_list};

// Gives the members of a set, from the lowest up.
#[derive(Drop)]
pub struct Members {
    rest: u32,
}

pub fn members_of(set: u32) -> Members
    ensures { result.rest ≡ set }
{
    Members { rest: set }
}

impl Iterator for Members {
    type Item = usize;

    ghost next_gives = { YieldsFirst (λ s. member_list s.rest) };

    ghost remaining = { item_count (λ s. member_list s.rest) };

    fn next(&mut self) -> Option<usize> {
        if self.rest == 0 {
            return None;
        }
        let lowest = self.rest.trailing_zeros() as usize;
        self.rest &= self.rest - 1;
        Some(lowest)
    }
}
