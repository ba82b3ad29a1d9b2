// Splits an entry, and prints its parts.
use crate::command::Splitting;
use crate::gates::all_gates;
use crate::grid::Grid;
use crate::refused::print_refused;
use gatesets::{GateSet, LentRows, Request};
use std::io;
use tables::{gate_code, table_in};

// Prints a part of a table of so many variables.
fn print_part(rt: &HostRuntime, side: &str, variables: u8, row: &[u8]) -> io::Result<()> {
    let codes = table_in(row, variables);
    println!(rt; "{side} part:")?;
    println!(rt; "{}", Grid { variables, codes })
}

// Splits the table of an entry.
pub fn split_entry(
    rt: &HostRuntime,
    splitting: Splitting<'_>,
    variables: u8,
    table: &mut [u8],
) -> io::Result<()> {
    let gates = all_gates();
    let mut left = [0; 1024];
    let mut right = [0; 1024];
    let mut first = [0; 2048];
    let mut second = [0; 2048];
    let ask = Request {
        variables,
        gate: splitting.gate,
        left: splitting.left,
        right: splitting.right,
    };
    let mut rows = LentRows {
        table,
        left: &mut left,
        right: &mut right,
        first: &mut first,
        second: &mut second,
    };
    match gates.split(ask, &mut rows) {
        Ok(()) => {
            let at = splitting.byte;
            let code = gate_code(gates.answers(ask.gate));
            println!(rt; "byte {at}: n = {variables}, gate code {code}")?;
            print_part(rt, "left", variables, &left)?;
            print_part(rt, "right", variables, &right)
        }
        Err(refusal) => print_refused(rt, splitting.file, splitting.byte, &refusal),
    }
}
