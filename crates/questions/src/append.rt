ghost use Rattle.std.specs.Prelude.{◌≡◌, MatchResult};
ghost use Rattle.questions.specs.declared.append.AppendError.TheVariants.{Refused, Memory};
ghost use Rattle.questions.specs.Dictionaries.{Appended, NotAppended};

use super::fault::WriteFault;
use super::heading::Heading;
use super::reader::Entry;
use super::writer::write_entry;
use std::alloc::AllocError;

// Why no entry is appended: the writer refuses the table, or memory is wanting.
#[derive(Clone, Copy, PartialEq, Eq, Debug)]
pub enum AppendError {
    Refused(WriteFault),
    Memory,
}

impl From<WriteFault> for AppendError {
    ghost from_gives = { λ fault r. r ≡ Refused fault };

    fn from(fault: WriteFault) -> AppendError {
        AppendError::Refused(fault)
    }
}

impl From<AllocError> for AppendError {
    ghost from_gives = { λ _ r. r ≡ Memory };

    fn from(_error: AllocError) -> AppendError {
        AppendError::Memory
    }
}

// Appends the entry of a table to a dictionary, and answers what the reader will answer there.
pub fn append_entry(
    dictionary: &mut Vec<u8>,
    variables: u8,
    codes: &[u8],
) -> Result<Entry, AppendError>
    ensures { MatchResult result
        (Appended variables codes.now dictionary.old.items dictionary.new.items)
        (λ e. (dictionary.new.items ≡ dictionary.old.items) × NotAppended variables codes.now e) }
{
    let mut entry = [0; 257];
    let size = write_entry(variables, codes, &mut entry)?;
    let heading = Heading::from(entry[0]);
    dictionary.extend_from_slice(&entry[..size])?;
    Ok(Entry {
        variables,
        form: heading.form,
        next: dictionary.len(),
    })
}
