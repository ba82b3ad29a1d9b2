// Sets of gates: the interface of a split, its order of checks, and sets derived from any set below.
#![tactic(auto)]

mod check;
mod complement;
mod gateset;
mod left_inverted;
mod only;
mod opposite;
mod pair;
mod refusal;
mod request;
mod rows;

pub use check::check_split;
pub use gateset::GateSet;
pub use left_inverted::LeftInverted;
pub use only::only_gate;
pub use opposite::Opposite;
pub use pair::PairOf;
pub use refusal::{NoPair, SplitRefusal};
pub use request::Request;
pub use rows::LentRows;
