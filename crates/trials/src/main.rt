// trials: questions with known answers put to the sets of gates, and their splits compared with a search through all pairs of functions.
#![tactic(auto)]

mod asking;
mod brute;
mod cases;
mod comparing;
mod trial;

use asking::print_questions;
use gatesets::{LeftInverted, Opposite, PairOf};
use orset::Or;
use std::io;
use trial::Trial;
use xorset::Xor;

// Tries every set.
fn run(rt: &HostRuntime) -> io::Result<()> {
    let and = Opposite(Or);
    print_questions(rt, "or", &Or)?;
    let mut trial = Trial::default();
    trial.run(rt, "or", &Or)?;
    trial.run(rt, "and", &and)?;
    trial.run(rt, "xor", &Xor)?;
    trial.run(rt, "left-inverted or", &LeftInverted(Or))?;
    trial.run(rt, "left-inverted and", &LeftInverted(and))?;
    trial.run(rt, "left-inverted xor", &LeftInverted(Xor))?;
    trial.compare(rt, "or, and, xor", &PairOf(Or, PairOf(and, Xor)))?;
    trial.print_totals(rt)
}

fn main(rt: HostRuntime) -> io::Result<()> {
    run(&rt)
}
