ghost use Rattle.std.specs.Prelude.{◌≡◌};
ghost use Rattle.evaluator.specs.Faults.{fault_number};
ghost use Rattle.evaluator.specs.Numbers.{reading_number, ruling_number};
ghost use Rattle.rules.specs.declared.refusal.Layer.TheVariants.{Evaluator};

use rules::refusal::{Layer, Refusal};
use std::fmt;
pub use steps::model::Model;

// Which signs of a matter the well-founded model holds: neither, yes, no, or both.
#[derive(Clone, Copy, PartialEq, Eq, Debug)]
pub enum Reading {
    Undefined = 0,
    True = 1,
    False = 2,
    Contradictory = 3,
}

impl Reading {
    pub fn number(self) -> u8
        ensures { result ≡ reading_number self }
    {
        self as u8
    }
}

impl fmt::Display for Reading {
    fn fmt<W: fmt::Write>(&self, f: &mut fmt::Formatter<W>) -> fmt::Result {
        f.write_str(match self {
            Reading::Undefined => "undefined",
            Reading::True => "true",
            Reading::False => "false",
            Reading::Contradictory => "both",
        })
    }
}

// What the outcomes say of a matter: it is in every one, in none, or they differ; or there is no outcome.
#[derive(Clone, Copy, PartialEq, Eq, Debug)]
pub enum Ruling {
    Always = 1,
    Never = 2,
    Varies = 3,
    NoOutcome = 4,
}

impl Ruling {
    pub fn number(self) -> u8
        ensures { result ≡ ruling_number self }
    {
        self as u8
    }
}

impl fmt::Display for Ruling {
    fn fmt<W: fmt::Write>(&self, f: &mut fmt::Formatter<W>) -> fmt::Result {
        f.write_str(match self {
            Ruling::Always => "in every outcome",
            Ruling::Never => "in no outcome",
            Ruling::Varies => "in some outcomes",
            Ruling::NoOutcome => "there is no outcome",
        })
    }
}

#[derive(Clone, Copy, PartialEq, Eq, Debug)]
pub enum EvaluatorFault {
    // The matter is not below the rack's number of matters.
    NoMatter = 13,
    // There are more outcomes than places in the list, which holds the lowest that fit.
    TooManyOutcomes = 31,
    // The text is longer than the buffer, which is unchanged.
    TextTooLong = 32,
}

impl Refusal for EvaluatorFault {
    ghost numbered = { fault_number };

    ghost layered = { λ _. Evaluator };

    fn number(self) -> u8 {
        self as u8
    }

    fn layer(self) -> Layer {
        Layer::Evaluator
    }
}
