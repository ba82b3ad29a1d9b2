// What each command does, and the lines that say what happened.
use crate::command::{Command, Splitting, USAGE, parse};
use crate::grid::Grid;
use crate::refused::print_refused;
use crate::splits::split_entry;
use questions::{
    Entry, Form, Listed, RewriteError, Rewriting, Rewritten, Stop, list_dictionary, read_entry,
    rewrite_dictionary,
};
use std::{fs, io};
use tables::{Counts, count_codes, table_in};
use worked::worked_questions;

// Obeys the words of one command line.
pub fn obey(rt: &HostRuntime, words: &[&str]) -> io::Result<()> {
    match parse(words) {
        Ok(Command::List { file }) => list(rt, file),
        Ok(Command::Show { file, byte }) => show(rt, file, byte),
        Ok(Command::Split(splitting)) => split(rt, splitting),
        Ok(Command::Rewrite { file, to }) => rewrite(rt, file, to),
        Ok(Command::Worked) => worked(rt),
        Ok(Command::Help) => help(rt),
        Err(mistake) => println!(rt; "bad command: {mistake}"),
    }
}

fn help(rt: &HostRuntime) -> io::Result<()> {
    for line in USAGE {
        rt.println(line)?;
    }
    Ok(())
}

fn worked(rt: &HostRuntime) -> io::Result<()> {
    let count = worked_questions();
    println!(rt; "worked: {count} questions are proved to be answered as their table says")
}

fn form_name(form: Form) -> &'static str {
    match form {
        Form::TwoRows => "two rows",
        Form::OneRow => "one row",
    }
}

// The line of an entry that is refused.
fn print_refusal(rt: &HostRuntime, file: &str, stop: Stop) -> io::Result<()> {
    print_refused(rt, file, stop.at, &stop.fault)
}

// The bytes of a file; where it cannot be read, that is said.
fn read_file(rt: &HostRuntime, file: &str) -> io::Result<Option<Vec<u8>>> {
    match fs::read(rt, file) {
        Ok(bytes) => Ok(Some(bytes)),
        Err(error) => {
            println!(rt; "{file}: cannot be read: {error}")?;
            Ok(None)
        }
    }
}

fn print_listed(rt: &HostRuntime, listed: &Listed) -> io::Result<()> {
    let Listed { at, entry, counts } = listed;
    let variables = entry.variables;
    let form = form_name(entry.form);
    let Counts { zeros, ones, frees } = counts;
    println!(rt;
        "byte {at}: n = {variables}, {form}, codes: {zeros} of 0, {ones} of 1, {frees} free"
    )
}

fn list(rt: &HostRuntime, file: &str) -> io::Result<()> {
    let Some(bytes) = read_file(rt, file)? else {
        return Ok(());
    };
    let listing = list_dictionary(rt.alloc(), bytes.as_slice())?;
    for listed in listing.entries.iter() {
        print_listed(rt, listed)?;
    }
    if let Some(stop) = listing.stop {
        print_refusal(rt, file, stop)?;
    }
    let count = listing.entries.len();
    let size = bytes.len();
    println!(rt; "{file}: entries read: {count}, bytes: {size}")
}

fn print_entry(
    rt: &HostRuntime,
    file: &str,
    byte: usize,
    entry: Entry,
    row: &[u8],
) -> io::Result<()> {
    let codes = table_in(row, entry.variables);
    let counts = count_codes(codes);
    print_listed(
        rt,
        &Listed {
            at: byte,
            entry,
            counts,
        },
    )?;
    let variables = entry.variables;
    println!(rt; "{}", Grid { variables, codes })?;
    let next = entry.next;
    println!(rt; "{file}: the next entry is at byte {next}")
}

// Reads the entry at a byte number of a file into a row; where there is none to read, that is said.
fn read_at(rt: &HostRuntime, file: &str, byte: usize, row: &mut [u8]) -> io::Result<Option<Entry>> {
    let Some(bytes) = read_file(rt, file)? else {
        return Ok(None);
    };
    match read_entry(bytes.as_slice(), byte, row) {
        Ok(entry) => Ok(Some(entry)),
        Err(fault) => {
            print_refused(rt, file, byte, &fault)?;
            Ok(None)
        }
    }
}

fn show(rt: &HostRuntime, file: &str, byte: usize) -> io::Result<()> {
    let mut row = [0; 1024];
    match read_at(rt, file, byte, &mut row)? {
        Some(entry) => print_entry(rt, file, byte, entry, &row),
        None => Ok(()),
    }
}

fn split(rt: &HostRuntime, splitting: Splitting<'_>) -> io::Result<()> {
    let mut row = [0; 1024];
    match read_at(rt, splitting.file, splitting.byte, &mut row)? {
        Some(entry) => split_entry(rt, splitting, entry.variables, &mut row),
        None => Ok(()),
    }
}

fn print_change(rt: &HostRuntime, change: &Rewritten) -> io::Result<()> {
    let Rewritten { from, to, .. } = change;
    let before = form_name(change.before);
    let after = form_name(change.after);
    println!(rt; "byte {from}: now at byte {to}, {before} became {after}")
}

fn print_changes(rt: &HostRuntime, rewriting: &Rewriting) -> io::Result<()> {
    let mut changed = 0u64;
    let mut moved = 0u64;
    for change in rewriting.entries.iter() {
        if change.before != change.after {
            print_change(rt, change)?;
            changed = changed.saturating_add(1);
        } else if change.from != change.to {
            moved = moved.saturating_add(1);
        }
    }
    println!(rt; "entries with another form: {changed}, others that moved: {moved}")
}

fn write_file(
    rt: &HostRuntime,
    file: &str,
    to: &str,
    before: usize,
    rewriting: &Rewriting,
) -> io::Result<()> {
    match fs::write(rt, to, rewriting.bytes.as_slice()) {
        Ok(()) => {
            print_changes(rt, rewriting)?;
            let count = rewriting.entries.len();
            let after = rewriting.bytes.len();
            println!(rt;
                "{file}: entries written to {to}: {count}, bytes before: {before}, after: {after}"
            )
        }
        Err(error) => println!(rt; "{to}: cannot be written: {error}"),
    }
}

fn rewrite(rt: &HostRuntime, file: &str, to: &str) -> io::Result<()> {
    let Some(bytes) = read_file(rt, file)? else {
        return Ok(());
    };
    match rewrite_dictionary(rt.alloc(), bytes.as_slice()) {
        Ok(rewriting) => write_file(rt, file, to, bytes.len(), &rewriting),
        Err(RewriteError::Stopped(stop)) => {
            print_refusal(rt, file, stop)?;
            println!(rt; "{file}: nothing was written to {to}")
        }
        Err(RewriteError::Memory) => Err(io::Error::from(io::ErrorKind::OutOfMemory)),
    }
}
