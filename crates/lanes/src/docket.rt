ghost use Rattle.std.specs.Prelude.{◌≡◌, length};

use rules::matters::MOST_MATTERS;
use rules::table::Table;

mod calls;

pub const STARTS: usize = MOST_MATTERS + 1;

// Rules by the matters that they are about, without the tautologies, which change no outcome.
#[derive(Clone, Copy)]
pub struct Docket {
    rules: Table,
    // One table, as a table for each matter would take sixteen times the room. The rules about a matter begin here, and end where those about the next begin. That they rise is no invariant: a docket
    // is filled in place, when the later starts are still 0, and each caller has it from `Docketed`, of a full one.
    starts: [usize; STARTS],
    ghost whole: { length starts ≡ 17 },
}
