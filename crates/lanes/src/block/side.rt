ghost use Rattle.std.specs.Prelude.{◌≡◌, ◌+◌, ◌%◌, ◌<◌};
ghost use Rattle.rules.specs.Semantics.{Mem};
ghost use Rattle.lanes.specs.Sides.{Takes};

use rules::sets::has;

// Which lanes hold a matter: all, none, or these.
#[derive(Clone, Copy)]
pub enum Side {
    In,
    Out,
    Varying(u64),
}

// The lanes whose own number has the bit.
const LANES_WITH_BIT: [u64; 6] = [
    0xAAAA_AAAA_AAAA_AAAA,
    0xCCCC_CCCC_CCCC_CCCC,
    0xF0F0_F0F0_F0F0_F0F0,
    0xFF00_FF00_FF00_FF00,
    0xFFFF_0000_FFFF_0000,
    0xFFFF_FFFF_0000_0000,
];

// The lanes whose number, counted on from that of the first, has the bit.
pub fn side_of_bit(bit: u8, first: u32) -> Side
    requires bit { bit < 16 }
    requires first { first % 64 ≡ 0 }
    ensures { Takes result (λ l. Mem bit (first + l)) }
{
    if bit < 6 {
        Side::Varying(LANES_WITH_BIT[bit as usize])
    } else if has(first.into(), bit) {
        Side::In
    } else {
        Side::Out
    }
}
