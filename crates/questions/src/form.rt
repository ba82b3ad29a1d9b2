ghost use Rattle.std.specs.Prelude.{◌≡◌};
ghost use Rattle.questions.specs.Writing.{digit_of};

// How an entry lies in the file: with a lower and an upper row, or with one row that serves as both.
#[derive(Clone, Copy, PartialEq, Eq, Debug)]
pub enum Form {
    TwoRows,
    OneRow,
}

// Which of an entry's two rows.
#[derive(Clone, Copy)]
pub enum Side {
    Lower,
    Upper,
}

impl Side {
    // A code's digit in this row.
    pub fn digit(self, code: u8) -> u8
        ensures { result ≡ digit_of self code }
    {
        match self {
            Side::Lower => u8::from(code == 1),
            Side::Upper => u8::from(code != 0),
        }
    }
}
