ghost use Rattle.rules.specs.Held.{held};
ghost use Rattle.racks.specs.Meaning.{Kept};

use rules::table::Table;

pub mod calls;

// Numbered sheets of rules, lowest first: what a rack that stands on no other holds.
#[derive(Clone, Copy)]
pub struct Sheets {
    matters: u8,
    sheets: u8,
    table: Table,
    ghost kept: { Kept (record { matters = matters; sheets = sheets; rules = held table }) },
}
