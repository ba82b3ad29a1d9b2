ghost use Rattle.std.specs.Prelude.{◌≡◌, ◌≤◌, drop, Ok, Err, MatchResult};
ghost use Rattle.questions.specs.Layouts.{table};
ghost use Rattle.questions.specs.Entries.{reading, Accepted, Refused};
ghost use Rattle.questions.specs.Dictionaries.{Lawful};

use super::fault::EntryFault;
use super::heading::Heading;
use super::layout::Layout;
use super::reader::Entry;
use super::rows::Rows;
use tables::table_in;

// An entry that a file has at a byte number, and the rows that hold its table.
#[derive(Clone, Copy)]
pub struct Found<'a> {
    pub at: usize,
    pub entry: Entry,
    pub rows: Rows<'a>,
    ghost variables: { rows.layout.variables ≡ entry.variables },
    ghost form: { rows.layout.form ≡ entry.form },
    ghost lawful: { Lawful (record { variables = entry.variables; codes = table entry.variables entry.form rows.bytes.now }) },
}

// All checks of the bytes from an entry's start on, for a row of so many codes.
fn check_entry(bytes: &[u8], room: usize) -> Result<Rows<'_>, EntryFault>
    ensures { MatchResult result (λ rows. (rows.bytes.now ≡ bytes.now) × Accepted bytes.now room rows.layout) (Refused bytes.now room) }
{
    let first = bytes.first().ok_or(EntryFault::NoByte)?;
    let heading = Heading::from(*first);
    let layout = Layout::new(heading.variables, heading.form).ok_or(EntryFault::Variables)?;
    if bytes.len() < layout.length || room < layout.points {
        return Err(EntryFault::TooShort);
    }
    let rows = Rows { bytes, layout };
    if let Some(byte) = rows.spare_digit() {
        return Err(EntryFault::SpareDigit { byte });
    }
    if let Some(assignment) = rows.lower_above_upper() {
        return Err(EntryFault::LowerAboveUpper { assignment });
    }
    Ok(rows)
}

impl<'a> Found<'a> {
    ghost use Rattle.questions.specs.Walks.{item_of};

    // The entry at a byte number of a file, whose table is to be written into a row of so many codes.
    pub(crate) fn find(file: &'a [u8], at: usize, room: usize) -> Result<Found<'a>, EntryFault>
        ensures { MatchResult result
            (λ found. (reading file.now at room ≡ Ok found.entry) × (found.at ≡ at) × (found.rows.bytes.now ≡ drop at file.now) × (found.rows.layout.points ≤ room))
            (λ fault. reading file.now at room ≡ Err fault) }
    {
        let Some(bytes) = file.get(at..) else {
            return Err(EntryFault::NoByte);
        };
        let rows = check_entry(bytes, room)?;
        let entry = Entry {
            variables: rows.layout.variables,
            form: rows.layout.form,
            next: at + rows.layout.length,
        };
        Ok(Found { at, entry, rows })
    }

    // The table, which is written into the front of a row.
    pub fn table<'r>(&self, row: &'r mut [u8; 1024]) -> &'r [u8]
        ensures { result.now ≡ (item_of self.now).codes }
    {
        self.rows.fill(row);
        table_in(row, self.entry.variables)
    }
}
