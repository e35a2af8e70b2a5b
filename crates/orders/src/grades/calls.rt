ghost use Rattle.std.specs.Prelude.{◌≡◌, []};
ghost use Rattle.orders.specs.Grading.{graded, grade, Sets};

use crate::fault::OrderFault;
use crate::grades::Grades;
use rules::table::MOST_SHEETS;

impl Grades {
    // No sheet has a grade of its own yet.
    pub fn new() -> Grades
        ensures { graded result ≡ [] }
    {
        Grades {
            bytes: [0; MOST_SHEETS],
            len: 0,
        }
    }

    // Gives the first sheets these grades, and no other sheet one of its own.
    pub fn set(&mut self, grades: &[u8]) -> Result<(), OrderFault>
        ensures { Sets grades.now self.old result self.new }
    {
        if grades.len() > MOST_SHEETS {
            return Err(OrderFault::TooManyGrades);
        }
        let mut bytes = [0; MOST_SHEETS];
        bytes[0..grades.len()].copy_from_slice(grades);
        *self = Grades {
            bytes,
            len: grades.len(),
        };
        Ok(())
    }

    // The grade of a sheet; a sheet with none of its own has grade 0.
    pub fn of(&self, sheet: u8) -> u8
        ensures { result ≡ grade self.now sheet }
    {
        self.bytes[..self.len]
            .get(usize::from(sheet))
            .copied()
            .unwrap_or(0)
    }
}
