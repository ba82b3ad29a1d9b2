// The set of gates whose only gate is XOR.
#![tactic(auto)]

mod frame;
mod search;
mod submasks;
mod xor;

pub use xor::Xor;
