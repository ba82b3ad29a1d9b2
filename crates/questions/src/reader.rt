ghost use Rattle.std.specs.Prelude.{◌≡◌, length, drop, IfOk};
ghost use Rattle.questions.specs.Layouts.{AdmitsBetween};
ghost use Rattle.questions.specs.Entries.{reading, row_after};

use super::fault::EntryFault;
use super::form::Form;
use super::found::Found;

// What an accepted entry is, besides its table.
#[derive(Clone, Copy, PartialEq, Eq, Debug)]
pub struct Entry {
    pub variables: u8,
    pub form: Form,
    // the byte number of the next entry
    pub next: usize,
}

// Reads the entry at a byte number of a file, and writes its table into the front of a row.
pub fn read_entry(file: &[u8], at: usize, row: &mut [u8]) -> Result<Entry, EntryFault>
    ensures answer { result ≡ reading file.now at (length row.old) }
    ensures row { row.new ≡ row_after result file.now at row.old }
    ensures between { IfOk result (λ e. AdmitsBetween e.variables e.form (drop at file.now) row.new) }
{
    let found = Found::find(file, at, row.len())?;
    found.rows.fill(row);
    Ok(found.entry)
}
