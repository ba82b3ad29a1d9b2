ghost use Rattle.std.specs.Prelude.{◌≡◌, List, map, IfOk};
ghost use Rattle.questions.specs.Dictionaries.{Item, Holds, HoldsOneList, listed};

use super::fault::EntryFault;
use super::reader::Entry;
use super::walk::Walk;
use std::alloc::{AllocError, Global};
use tables::{Counts, count_codes};

// An entry in a listing: its byte number, what was read, and how often each code stands in its table.
#[derive(Clone, Copy, PartialEq, Eq, Debug)]
pub struct Listed {
    pub at: usize,
    pub entry: Entry,
    pub counts: Counts,
}

// The first entry of a dictionary that is refused, by its byte number.
#[derive(Clone, Copy, PartialEq, Eq, Debug)]
pub struct Stop {
    pub at: usize,
    pub fault: EntryFault,
}

// All entries of a dictionary up to its end, or up to the first that is refused.
#[derive(Drop)]
pub struct Listing {
    pub entries: Vec<Listed>,
    pub stop: Option<Stop>,
}

// Lists the entries of a dictionary.
#[tactic(auto, using(crate::proofs::Holding::holds_one_list))]
pub fn list_dictionary(heap: Global, file: &[u8]) -> Result<Listing, AllocError>
    ensures entries { IfOk result (λ l. (items : List Item) × Holds file.now 0 items l.stop × (l.entries.items ≡ map listed items)) }
    ensures one_list { HoldsOneList }
{
    let mut row = [0; 1024];
    let mut entries = Vec::new(heap);
    for found in Walk::new(file) {
        match found {
            Ok(found) => entries.push(Listed {
                at: found.at,
                entry: found.entry,
                counts: count_codes(found.table(&mut row)),
            })?,
            Err(stop) => return Ok(Listing {
                entries,
                stop: Some(stop),
            }),
        }
    }
    Ok(Listing {
        entries,
        stop: None,
    })
}
