ghost use Rattle.std.specs.Prelude.{◌≡◌, ◌+◌, ◌/◌, ◌%◌, ◌^◌, ◌<◌, ◌≤◌, ◌++◌, Bool, not, ◌==◌, length, drop, position, bit_and, slice_index};
ghost use Rattle.std.specs.List.{zip};
ghost use Rattle.tables.specs.Checks.{lowest};
ghost use Rattle.tables.specs.Tables.{digit};
ghost use Rattle.questions.specs.Layouts.{row_from, upper_start, code_by, code, table};
ghost use Rattle.questions.specs.Entries.{spare_at, above_at};

use super::layout::Layout;

// An entry's bytes, in the layout that they have.
#[derive(Clone, Copy)]
pub struct Rows<'a> {
    pub bytes: &'a [u8],
    pub layout: Layout,
    ghost whole: { layout.length ≤ length bytes.now },
}

// The digit for an assignment in a row.
fn digit(row: &[u8], assignment: usize) -> u8
    requires { assignment / 8 < length row.now }
    ensures { result ≡ digit (assignment % 8) (slice_index row.now (assignment / 8)) }
{
    (row[assignment / 8] >> (assignment % 8)) & 1
}

// The code of two digits: 1 where the lower is 1, 0 where the upper is 0, 2 elsewhere.
fn code_of(low: u8, high: u8) -> u8
    ensures { result ≡ code_by low high }
{
    match (low, high) {
        (1, _) => 1,
        (_, 0) => 0,
        _ => 2,
    }
}

// The place of the first byte that has a digit set past so many.
fn place_past(rows: &[u8], points: usize) -> Option<usize>
    requires { points < 8 }
    ensures { result ≡ position (λ byte. not (byte / 2 ^ points == 0)) rows.now }
{
    rows.iter().position(|byte| *byte >> points != 0)
}

impl<'a> Rows<'a> {
    // The lower row.
    fn lower(&self) -> &'a [u8]
        ensures { result.now ≡ row_from self.now.layout.variables self.now.bytes.now 1 }
    {
        &self.bytes[1..1 + self.layout.row]
    }

    // The upper row, which may be the same.
    fn upper(&self) -> &'a [u8]
        ensures { result.now ≡ row_from self.now.layout.variables self.now.bytes.now (upper_start self.now.layout.variables self.now.layout.form) }
    {
        &self.bytes[self.layout.upper..self.layout.length]
    }

    // The first byte of the rows that has a spare digit set.
    pub fn spare_digit(&self) -> Option<usize>
        ensures { result ≡ lowest self.now.layout.length (spare_at self.now.layout.variables self.now.bytes.now) }
    {
        if self.layout.variables >= 3 {
            return None;
        }
        let place = place_past(&self.bytes[1..self.layout.length], self.layout.points)?;
        Some(1 + place)
    }

    // The place of the first byte of the lower row that has digits which the upper row does not have.
    fn place_above(&self) -> Option<usize>
        ensures { result ≡ position (λ p. not (bit_and p.0 p.1 == p.0))
            (zip (row_from self.now.layout.variables self.now.bytes.now 1)
            (row_from self.now.layout.variables self.now.bytes.now (upper_start self.now.layout.variables self.now.layout.form))) }
    {
        self.lower()
            .iter()
            .zip(self.upper())
            .position(|(low, high)| low & high != *low)
    }

    // The first assignment at which the lower row is above the upper row.
    pub fn lower_above_upper(&self) -> Option<usize>
        ensures { result ≡ lowest (2 ^ self.now.layout.variables) (above_at self.now.layout.variables self.now.layout.form self.now.bytes.now) }
    {
        let place = self.place_above()?;
        let above = self.lower()[place] & !self.upper()[place];
        let assignment = 8 * place + above.trailing_zeros() as usize;
        (assignment < self.layout.points).then_some(assignment)
    }

    // The code of an assignment.
    fn code(&self, assignment: usize) -> u8
        requires { assignment < self.now.layout.points }
        ensures { result ≡ code self.now.layout.variables self.now.layout.form self.now.bytes.now assignment }
    {
        code_of(
            digit(self.lower(), assignment),
            digit(self.upper(), assignment),
        )
    }

    // Writes the table into the front of a row.
    pub(crate) fn fill(&self, row: &mut [u8])
        requires { self.now.layout.points ≤ length row.old }
        ensures { row.new ≡ table self.now.layout.variables self.now.layout.form self.now.bytes.now ++ drop (2 ^ self.now.layout.variables) row.old }
    {
        let codes = &mut row[..self.layout.points];
        for (assignment, code) in codes.iter_mut().enumerate() {
            *code = self.code(assignment);
        }
    }
}
