// Questions: the dictionary of truth tables, read and written.
#![tactic(auto)]

mod append;
mod fault;
mod form;
mod found;
mod heading;
mod layout;
mod listing;
mod reader;
mod rewrite;
mod rows;
mod walk;
mod writer;

pub use append::{AppendError, append_entry};
pub use fault::{EntryFault, WriteFault};
pub use form::Form;
pub use listing::{Listed, Listing, Stop, list_dictionary};
pub use reader::{Entry, read_entry};
pub use rewrite::{RewriteError, Rewriting, Rewritten, rewrite_dictionary};
pub use writer::write_entry;
