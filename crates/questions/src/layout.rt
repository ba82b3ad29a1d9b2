ghost use Rattle.std.specs.Prelude.{◌≡◌, ◌^◌, ◌≤◌, false, IsTrue, MatchOption};
ghost use Rattle.tables.specs.Tables.{lawful_size};
ghost use Rattle.questions.specs.Layouts.{row_length, upper_start, entry_length};

use super::form::Form;
use tables::points;

// Where the parts of an entry lie: all that its number of variables and its form fix.
#[derive(Clone, Copy)]
pub struct Layout {
    pub variables: u8,
    pub form: Form,
    // the number of assignments
    pub points: usize,
    // the number of bytes of a row
    pub row: usize,
    // the byte at which the upper row starts; the lower row starts at byte 1
    pub upper: usize,
    // the number of bytes of the entry
    pub length: usize,
    ghost lawful: { (1 ≤ variables) × (variables ≤ 10) },
    ghost points_are: { points ≡ 2 ^ variables },
    ghost row_is: { row ≡ row_length variables },
    ghost upper_at: { upper ≡ upper_start variables form },
    ghost length_is: { length ≡ entry_length variables form },
}

impl Layout {
    // The layout of an entry of so many variables; none where that number is not from 1 to 10.
    pub fn new(variables: u8, form: Form) -> Option<Layout>
        ensures { MatchOption result (lawful_size variables ≡ false) (λ l. IsTrue (lawful_size variables) × (l.variables ≡ variables) × (l.form ≡ form)) }
    {
        let points = points(variables)?;
        let row = if variables < 3 { 1 } else { points / 8 };
        let upper = match form {
            Form::TwoRows => 1 + row,
            Form::OneRow => 1,
        };
        Some(Layout {
            variables,
            form,
            points,
            row,
            upper,
            length: upper + row,
        })
    }
}
