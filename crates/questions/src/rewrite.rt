ghost use Rattle.std.specs.Prelude.{◌≡◌, ◌++◌, IfOk, MatchResult};
ghost use Rattle.questions.specs.declared.rewrite.RewriteError.TheVariants.{Stopped, Memory};
ghost use Rattle.questions.specs.Writing.{form_for, entry_bytes};
ghost use Rattle.questions.specs.Dictionaries.{EveryTableReadsBack, EveryListReadsBack};
ghost use Rattle.questions.specs.Walks.{item_of};
ghost use Rattle.questions.specs.Rewriting.{RewrittenAs, NotRewritten};

use super::append::{AppendError, append_entry};
use super::form::Form;
use super::found::Found;
use super::listing::Stop;
use super::walk::Walk;
use std::alloc::{AllocError, AllocFailed, Global};

// Where an entry stood and stands after its dictionary was written anew, and in which form.
#[derive(Clone, Copy, PartialEq, Eq, Debug)]
pub struct Rewritten {
    pub from: usize,
    pub to: usize,
    pub before: Form,
    pub after: Form,
}

// A dictionary written anew: its bytes, and where each of its entries went.
#[derive(Drop)]
pub struct Rewriting {
    pub bytes: Vec<u8>,
    pub entries: Vec<Rewritten>,
}

// Why a dictionary is not written anew: an entry is refused, or memory is wanting.
#[derive(Clone, Copy, PartialEq, Eq, Debug)]
pub enum RewriteError {
    Stopped(Stop),
    Memory,
}

impl From<Stop> for RewriteError {
    ghost from_gives = { λ stop r. r ≡ Stopped stop };

    fn from(stop: Stop) -> RewriteError {
        RewriteError::Stopped(stop)
    }
}

impl From<AllocError> for RewriteError {
    ghost from_gives = { λ _ r. r ≡ Memory };

    fn from(_error: AllocError) -> RewriteError {
        RewriteError::Memory
    }
}

impl<T: Drop> From<AllocFailed<T>> for RewriteError {
    ghost from_gives = { λ _ r. r ≡ Memory };

    fn from(_refused: AllocFailed<T>) -> RewriteError {
        RewriteError::Memory
    }
}

// Appends the table of an entry that was found, and answers the form that it got. The row is for its codes.
fn append_table(
    bytes: &mut Vec<u8>,
    found: &Found<'_>,
    row: &mut [u8; 1024],
) -> Result<Form, AllocError>
    ensures { IfOk result (λ form. (form ≡ form_for found.now.entry.variables (item_of found.now).codes)
        × (bytes.new.items ≡ bytes.old.items ++ entry_bytes found.now.entry.variables (item_of found.now).codes)) }
{
    match append_entry(bytes, found.entry.variables, found.table(row)) {
        Ok(entry) => Ok(entry.form),
        Err(AppendError::Memory) => Err(AllocError),
        Err(AppendError::Refused(_)) => unreachable(),
    }
}

// Writes the tables of a dictionary anew, one after the other.
#[tactic(auto, using(crate::proofs::Relisting::every_list_reads_back))]
pub fn rewrite_dictionary(heap: Global, file: &[u8]) -> Result<Rewriting, RewriteError>
    ensures result { MatchResult result (λ w. RewrittenAs file.now w.bytes.items w.entries.items) (NotRewritten file.now) }
    ensures tables { EveryTableReadsBack }
    ensures lists { EveryListReadsBack }
{
    let mut row = [0; 1024];
    let mut bytes = Vec::new(heap);
    let mut entries = Vec::new(heap);
    for found in Walk::new(file) {
        let found = found?;
        let to = bytes.len();
        let after = append_table(&mut bytes, &found, &mut row)?;
        entries.push(Rewritten {
            from: found.at,
            to,
            before: found.entry.form,
            after,
        })?;
    }
    Ok(Rewriting { bytes, entries })
}
