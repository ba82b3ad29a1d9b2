// The commands, and what is wrong with words that are none.
use crate::gates::gate_number;
use std::fmt;

// What one command line asks for.
#[derive(Clone, Copy)]
pub enum Command<'a> {
    List { file: &'a str },
    Show { file: &'a str, byte: usize },
    Split(Splitting<'a>),
    Rewrite { file: &'a str, to: &'a str },
    Worked,
    Help,
}

// What is to be split: the entry at a byte number, by a gate, with the variables of two groups.
#[derive(Clone, Copy)]
pub struct Splitting<'a> {
    pub file: &'a str,
    pub byte: usize,
    pub gate: u8,
    pub left: u16,
    pub right: u16,
}

// Why words are no command.
#[derive(Clone, Copy)]
pub enum Mistake<'a> {
    Empty,
    Unknown { word: &'a str },
    Usage { usage: &'a str },
    ByteNumber { word: &'a str },
    Gate { word: &'a str },
    Group { word: &'a str },
    Onto { file: &'a str },
}

pub const USAGE: [&str; 5] = [
    "list FILE            what each entry of a dictionary is",
    "show FILE BYTE       the entry at a byte number, as a table",
    "rewrite FILE TO      the dictionary written anew to another file",
    "worked               how many worked questions are proved",
    "help                 these lines",
];

// The byte number that a word is.
fn parse_byte(word: &str) -> Result<usize, Mistake<'_>> {
    word.parse().map_err(|_| Mistake::ByteNumber { word })
}

// The group that a word of letters names.
fn parse_group(word: &str) -> Result<u16, Mistake<'_>> {
    let mut group = 0;
    for letter in word.bytes() {
        let variable: u16 = match letter {
            b'a'..=b'j' => 1 << (letter - b'a'),
            _ => return Err(Mistake::Group { word }),
        };
        if group & variable != 0 {
            return Err(Mistake::Group { word });
        }
        group |= variable;
    }
    Ok(group)
}

// Reads the words of a command line.
pub fn parse<'a>(words: &[&'a str]) -> Result<Command<'a>, Mistake<'a>> {
    let usage = match *words {
        [] => return Err(Mistake::Empty),
        ["list", file] => return Ok(Command::List { file }),
        ["list", ..] => "list FILE",
        ["show", file, byte] => {
            return Ok(Command::Show {
                file,
                byte: parse_byte(byte)?,
            });
        }
        ["show", ..] => "show FILE BYTE",
        ["split", file, byte, gate, left, right] => {
            return Ok(Command::Split(Splitting {
                file,
                byte: parse_byte(byte)?,
                gate: gate_number(gate).ok_or(Mistake::Gate { word: gate })?,
                left: parse_group(left)?,
                right: parse_group(right)?,
            }));
        }
        ["split", ..] => "split FILE BYTE GATE LEFT RIGHT",
        ["rewrite", file, to] if file == to => return Err(Mistake::Onto { file }),
        ["rewrite", file, to] => return Ok(Command::Rewrite { file, to }),
        ["rewrite", ..] => "rewrite FILE TO",
        ["worked"] => return Ok(Command::Worked),
        ["worked", ..] => "worked",
        ["help"] => return Ok(Command::Help),
        ["help", ..] => "help",
        [word, ..] => return Err(Mistake::Unknown { word }),
    };
    Err(Mistake::Usage { usage })
}

impl<'a> fmt::Display for Mistake<'a> {
    fn fmt<W: fmt::Write>(&self, f: &mut fmt::Formatter<W>) -> fmt::Result {
        match self {
            Mistake::Empty => write!(f, "no command on this line; help lists the commands"),
            Mistake::Unknown { word } => write!(
                f,
                "{word:?} is no command; help lists the commands"
            ),
            Mistake::Usage { usage } => write!(f, "the form is {usage}"),
            Mistake::Onto { file } => write!(
                f,
                "{file} is not written over itself; name another file"
            ),
            Mistake::ByteNumber { word } => write!(f, "{word:?} is no byte number"),
            Mistake::Gate { word } => write!(
                f,
                "{word:?} is no gate; the gates are or, and and xor, and each with left-inverted- before it"
            ),
            Mistake::Group { word } => write!(
                f,
                "{word:?} is no group; a group is letters from a to j, each once"
            ),
        }
    }
}
