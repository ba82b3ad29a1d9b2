// birdterm: command lines, one to a line on standard input, or one given as arguments.
#![tactic(auto)]

mod command;
mod desk;
mod gates;
mod grid;
mod refused;
mod splits;

use desk::obey;
use std::io::{BufRead, BufReader};
use std::{env, io};

// Obeys one line of standard input.
fn obey_line(rt: &HostRuntime, line: &[u8]) -> io::Result<()> {
    match std::str::from_utf8(line) {
        Ok(text) => {
            let words: Vec<&str> = text.split_whitespace().collect(rt.alloc())?;
            obey(rt, words.as_slice())
        }
        Err(_) => println!(rt; "bad command: the line is no text"),
    }
}

// Obeys each line of standard input.
fn obey_lines(rt: &HostRuntime) -> io::Result<()> {
    for line in BufReader::new(rt.alloc(), rt.stdin())?.split(rt.alloc(), b'\n') {
        obey_line(rt, line?.as_slice())?;
    }
    Ok(())
}

// Obeys the one command that the arguments are, or the lines of standard input where there is none.
fn obey_all(rt: &HostRuntime) -> io::Result<()> {
    let arguments = match env::args(rt) {
        Ok(arguments) => arguments,
        Err(error) => return println!(rt; "bad command: the arguments cannot be read: {error}"),
    };
    let arguments: Vec<String> = arguments.skip(1).collect(rt.alloc())?;
    if arguments.is_empty() {
        return obey_lines(rt);
    }
    let words: Vec<&str> = arguments
        .iter()
        .map(|argument| argument.as_str())
        .collect(rt.alloc())?;
    obey(rt, words.as_slice())
}

fn main(rt: HostRuntime) -> io::Result<()> {
    obey_all(&rt)
}
