ghost use Rattle.questions.specs.Faults.{entry_number, entry_spot, write_number, write_spot};

use tables::Refusal;

// Why the reader refuses an entry.
#[derive(Clone, Copy, PartialEq, Eq, Debug)]
pub enum EntryFault {
    // The file has no byte where the entry should start.
    NoByte,
    // The first byte names no number of variables from 1 to 10.
    Variables,
    // The file ends within the entry, or the row has too few codes for the table.
    TooShort,
    // A digit that stands for no assignment is set in this byte of the entry.
    SpareDigit { byte: usize },
    // The lower row is 1 and the upper row 0 at this assignment.
    LowerAboveUpper { assignment: usize },
}

impl Refusal for EntryFault {
    ghost numbered = { entry_number };

    ghost spotted = { entry_spot };

    fn number(&self) -> u8 {
        match self {
            EntryFault::Variables => 1,
            EntryFault::NoByte | EntryFault::TooShort => 2,
            EntryFault::SpareDigit { .. } => 3,
            EntryFault::LowerAboveUpper { .. } => 4,
        }
    }

    fn spot(&self) -> usize {
        match self {
            EntryFault::SpareDigit { byte } => *byte,
            EntryFault::LowerAboveUpper { assignment } => *assignment,
            _ => 0,
        }
    }
}

// Why the writer refuses a table.
#[derive(Clone, Copy, PartialEq, Eq, Debug)]
pub enum WriteFault {
    // The number of variables is not from 1 to 10.
    Variables,
    // The row has too few codes for the table, or the output row too few bytes for the entry.
    TooShort,
    // The code at this index is above 2.
    Code { index: usize },
}

impl Refusal for WriteFault {
    ghost numbered = { write_number };

    ghost spotted = { write_spot };

    fn number(&self) -> u8 {
        match self {
            WriteFault::Variables => 1,
            WriteFault::TooShort => 2,
            WriteFault::Code { .. } => 5,
        }
    }

    fn spot(&self) -> usize {
        match self {
            WriteFault::Code { index } => *index,
            _ => 0,
        }
    }
}
