ghost use Rattle.std.specs.Prelude.{◌≡◌, Decides};
ghost use Rattle.rules.specs.Semantics.{body, opposite, Clash, ◌⊆◌};
ghost use Rattle.rules.specs.Signs.{Signs, sign_number};

// The sign of a literal: a matter, which is a propositional atom (`Yes`), or its default negation (`No`).
#[derive(Clone, Copy, PartialEq, Eq, Debug, Default)]
pub enum Sign {
    #[default]
    No = 0,
    Yes = 1,
}

impl Sign {
    // The sign of the contrary literal.
    pub fn opposite(self) -> Sign
        ensures { result ≡ opposite self }
    {
        match self {
            Sign::No => Sign::Yes,
            Sign::Yes => Sign::No,
        }
    }
}

// A number that is no sign.
#[derive(Clone, Copy, PartialEq, Eq, Debug)]
pub struct NoSign(pub u8);

impl TryFrom<u8> for Sign {
    type Error = NoSign;

    ghost try_from_gives = { Signs };

    fn try_from(number: u8) -> Result<Sign, NoSign> {
        match number {
            0 => Ok(Sign::No),
            1 => Ok(Sign::Yes),
            _ => Err(NoSign(number)),
        }
    }
}

impl From<Sign> for u8 {
    ghost from_gives = { λ sign r. r ≡ sign_number sign };

    fn from(sign: Sign) -> u8 {
        sign as u8
    }
}

// A set of matters is a number with bit `a` set for matter `a`.
// A literal set is its yes matters and its no matters; it may hold both signs of one.
pub type LiteralSet = (u16, u16);

// A rule of a numbered sheet. Its body is true where all `yes` matters hold and all `no` matters do not.
#[derive(Clone, Copy, PartialEq, Eq, Debug, Default)]
pub struct Rule {
    pub sheet: u8,
    pub head: u8,
    pub sign: Sign,
    pub yes: u16,
    pub no: u16,
}

impl Rule {
    // Whether every literal of the body is in `x`.
    pub fn body_true(self, x: LiteralSet) -> bool
        ensures { Decides result (body self ⊆ x) }
    {
        self.yes & x.0 == self.yes && self.no & x.1 == self.no
    }

    // Whether the heads are the same matter with opposite signs.
    pub fn clashes(self, other: Rule) -> bool
        ensures { Decides result (Clash self other) }
    {
        self.head == other.head && self.sign != other.sign
    }
}

// The three numbers of a rack.
#[derive(Clone, Copy, PartialEq, Eq, Debug)]
pub struct Shape {
    pub matters: u8,
    pub sheets: u8,
    pub rules: u16,
}
