ghost use Rattle.orders.specs.Grading.{graded};
ghost use Rattle.orders.specs.Overrules.{by_grade};
ghost use Rattle.std.proofs.Common.{rules};

use crate::grades::Grades;
use crate::order::Order;

// The order by grade, code 2: a sheet overrules those of its own or a lower grade.
#[derive(Clone, Copy)]
pub struct Graded {
    pub grades: Grades,
}

impl Order for Graded {
    const CODE: u8 = 2;

    ghost CODE = { 2 };

    ghost over = { λ x. by_grade (graded x.grades) };

    ghost coded = { Prim.search rules };

    ghost total = { Prim.search rules };

    fn overrules(&self, j: u8, i: u8) -> bool {
        self.grades.of(i) <= self.grades.of(j)
    }
}
