// The set of gates whose only gate is OR.
#![tactic(auto)]

mod cells;
mod or;
mod parts;

pub use or::Or;
