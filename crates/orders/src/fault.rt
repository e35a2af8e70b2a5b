ghost use Rattle.orders.specs.Faults.{order_number};
ghost use Rattle.rules.specs.declared.refusal.Layer.TheVariants.{Order as OrderLayer};

use rules::refusal::{Layer, Refusal};

#[derive(Clone, Copy, PartialEq, Eq, Debug)]
pub enum OrderFault {
    TooManyGrades = 15,
}

impl Refusal for OrderFault {
    ghost numbered = { order_number };

    ghost layered = { λ _. OrderLayer };

    fn number(self) -> u8 {
        self as u8
    }

    fn layer(self) -> Layer {
        Layer::Order
    }
}
