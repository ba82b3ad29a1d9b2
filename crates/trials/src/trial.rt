// A trial: what is known of each set, and totals over all sets.
use crate::asking::{Tally, tally_questions};
use crate::comparing::{Compared, compare_groups};
use gatesets::GateSet;
use std::io;
use tables::gate_code;

#[derive(Clone, Copy, Default)]
pub struct Trial {
    tally: Tally,
    compared: Compared,
}

// Prints the code of each gate of a set, and of the number past the last.
fn print_gates<S: GateSet>(rt: &HostRuntime, name: &str, set: &S) -> io::Result<()> {
    let count = set.count();
    for gate in 0..count {
        let code = gate_code(set.answers(gate));
        println!(rt; "{name}: gate {gate}: code {code}")?;
    }
    let code = gate_code(set.answers(count));
    println!(rt; "{name}: gate {count}, past the last: code {code}")
}

impl Trial {
    // Tries a set of one gate.
    pub fn run<S: GateSet>(&mut self, rt: &HostRuntime, name: &str, set: &S) -> io::Result<()> {
        let tally = tally_questions(set);
        println!(rt; "{name}: {tally}")?;
        self.tally += tally;
        self.compare(rt, name, set)
    }

    // Compares the splits by each gate of a set.
    pub fn compare<S: GateSet>(&mut self, rt: &HostRuntime, name: &str, set: &S) -> io::Result<()> {
        print_gates(rt, name, set)?;
        for gate in 0..set.count() {
            for variables in 1..4 {
                let compared = compare_groups(set, gate, variables);
                println!(rt; "{name}: gate {gate}, n = {variables}: {compared}")?;
                self.compared += compared;
            }
        }
        Ok(())
    }

    // Prints the totals over all sets.
    pub fn print_totals(&self, rt: &HostRuntime) -> io::Result<()> {
        let Trial { tally, compared } = self;
        println!(rt; "all sets: {tally}")?;
        println!(rt; "all sets: {compared}")?;
        match compared.different {
            0 => println!(rt; "none of the splits differs from the search"),
            different => println!(rt; "splits that differ from the search: {different}"),
        }
    }
}
