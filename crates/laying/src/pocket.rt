ghost use Rattle.std.specs.Prelude.{◌≤◌, length};
ghost use Rattle.racks.specs.Changing.{sheets_meaning};

use racks::sheets::Sheets;

pub mod calls;

// An open rack that stands on nothing, with 64 rule places.
#[derive(Clone, Copy)]
pub struct PocketRack {
    sheets: Sheets,
    ghost housed: { length (sheets_meaning sheets).rules ≤ 64 },
}
