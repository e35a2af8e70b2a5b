ghost use Rattle.orders.specs.Overrules.{by_position};
ghost use Rattle.std.proofs.Common.{rules};

use crate::order::Order;

// The order by position, code 1: a later sheet overrules an earlier one, and each overrules itself.
#[derive(Clone, Copy, PartialEq, Eq, Debug)]
pub struct Position;

impl Order for Position {
    const CODE: u8 = 1;

    ghost CODE = { 1 };

    ghost over = { λ _. by_position };

    ghost coded = { Prim.search rules };

    ghost total = { Prim.search rules };

    fn overrules(&self, j: u8, i: u8) -> bool {
        i <= j
    }
}
