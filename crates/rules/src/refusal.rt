ghost use Rattle.std.specs.Prelude.{◌≡◌, ℕ};
ghost use Rattle.rules.specs.declared.refusal.Layer.{Layer as SomeLayer};

use std::fmt;

// The part of the program that gave a refusal.
#[derive(Clone, Copy, PartialEq, Eq, Debug)]
pub enum Layer {
    File,
    Order,
    Rack,
    Kiosk,
    Evaluator,
}

impl fmt::Display for Layer {
    fn fmt<W: fmt::Write>(&self, f: &mut fmt::Formatter<W>) -> fmt::Result {
        f.write_str(match self {
            Layer::File => "file",
            Layer::Order => "order",
            Layer::Rack => "rack",
            Layer::Kiosk => "kiosk",
            Layer::Evaluator => "evaluator",
        })
    }
}

// Why a call is refused, told by a number and the layer that gave it. Each enum writes its own: a cast is of one type, and a derive of the
// repository's own is refused.
pub trait Refusal: Copy {
    ghost numbered: { Self → ℕ };

    ghost layered: { Self → SomeLayer };

    fn number(self) -> u8
        ensures { result ≡ numbered self };

    fn layer(self) -> Layer
        ensures { result ≡ layered self };
}
