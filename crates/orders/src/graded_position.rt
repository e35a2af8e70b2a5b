ghost use Rattle.orders.specs.Grading.{graded};
ghost use Rattle.orders.specs.Overrules.{by_grade_then_position};
ghost use Rattle.std.proofs.Common.{rules};

use crate::grades::Grades;
use crate::order::Order;

// The order by grade and then position, code 3: of two sheets of one grade the later overrules.
#[derive(Clone, Copy)]
pub struct GradedPosition {
    pub grades: Grades,
}

impl Order for GradedPosition {
    const CODE: u8 = 3;

    ghost CODE = { 3 };

    ghost over = { λ x. by_grade_then_position (graded x.grades) };

    ghost coded = { Prim.search rules };

    ghost total = { Prim.search rules };

    fn overrules(&self, j: u8, i: u8) -> bool {
        let (low, high) = (self.grades.of(i), self.grades.of(j));
        low < high || (low == high && i <= j)
    }
}
