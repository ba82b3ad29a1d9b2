// Tables: rows of codes over assignments, rows that ignore a group of variables, gates, stacks over lent cells, and what every refusal reports.
#![tactic(auto)]

mod counts;
mod entry;
mod gate;
mod group;
mod ignoring;
mod refusal;
mod size;
mod stack;
mod wrong;

pub use counts::{Counts, count_codes};
pub use entry::Entry;
pub use gate::{complement_code, gate_code};
pub use group::clear_group;
pub use ignoring::{IgnoreRefusal, ignores};
pub use refusal::Refusal;
pub use size::{points, table_in};
pub use stack::{Stack, StackRefusal};
pub use wrong::wrong_code;
