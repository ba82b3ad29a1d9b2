// What refusals mean, and the line of a refusal.
use gatesets::SplitRefusal;
use questions::EntryFault;
use std::io;
use tables::Refusal;

// A refusal, with words for what it means where the rows take any table.
pub trait Explained: Refusal {
    fn meaning(&self) -> &'static str;
}

impl Explained for EntryFault {
    fn meaning(&self) -> &'static str {
        match self {
            EntryFault::NoByte => "the file has no byte there",
            EntryFault::Variables => "the first byte names no number of variables from 1 to 10",
            EntryFault::TooShort => "the file ends within the entry",
            EntryFault::SpareDigit { .. } => {
                "a digit that stands for no assignment is set in that byte of the entry"
            }
            EntryFault::LowerAboveUpper { .. } => {
                "the lower row is above the upper row at that assignment"
            }
        }
    }
}

impl Explained for SplitRefusal {
    fn meaning(&self) -> &'static str {
        match self {
            SplitRefusal::Variables => "the number of variables is not from 1 to 10",
            SplitRefusal::TooShort => "a row is too short for the table",
            SplitRefusal::Code { .. } => "that code of the table is above 2",
            SplitRefusal::Gate => "there is no such gate",
            SplitRefusal::Groups => {
                "a group is empty, or has a variable that the other group has too or that the entry has not"
            }
            SplitRefusal::NoPair => "no such parts exist",
        }
    }
}

// Prints the number, the spot, the byte number of the entry, and what the refusal means.
pub fn print_refused<R: Explained>(
    rt: &HostRuntime,
    file: &str,
    at: usize,
    refusal: &R,
) -> io::Result<()> {
    let number = refusal.number();
    let spot = refusal.spot();
    let meaning = refusal.meaning();
    println!(rt; "{file}: refused: number {number}, spot {spot}, entry at byte {at}: {meaning}")
}
