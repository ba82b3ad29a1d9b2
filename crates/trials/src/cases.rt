// Questions to a set of one gate, each with the answer that is expected.
use gatesets::{Request, SplitRefusal};

// How long the five rows are.
#[derive(Clone, Copy)]
pub struct Lengths {
    pub table: usize,
    pub left: usize,
    pub right: usize,
    pub first: usize,
    pub second: usize,
}

// A question: what is asked, the lengths of the rows, the first codes of the table, which is free beyond them, and the answer: parts, or a refusal.
#[derive(Clone, Copy)]
pub struct Case {
    pub name: &'static str,
    pub ask: Request,
    pub lengths: Lengths,
    pub codes: [u8; 8],
    pub expected: Result<(), SplitRefusal>,
}

// The longest rows: they suffice for 11 variables.
pub const LONGEST: usize = 2048;

pub const LONGEST_WORK: usize = 4096;

const LONG: Lengths = Lengths {
    table: LONGEST,
    left: LONGEST,
    right: LONGEST,
    first: LONGEST_WORK,
    second: LONGEST_WORK,
};

// Rows that are just long enough for 3 variables.
const FIT: Lengths = Lengths {
    table: 8,
    left: 8,
    right: 8,
    first: 16,
    second: 16,
};

const SHORT_TABLE: Lengths = Lengths { table: 7, ..FIT };

const SHORT_LEFT: Lengths = Lengths { left: 7, ..FIT };

const SHORT_RIGHT: Lengths = Lengths { right: 7, ..FIT };

const SHORT_FIRST: Lengths = Lengths { first: 15, ..FIT };

const SHORT_SECOND: Lengths = Lengths { second: 15, ..FIT };

// The first variable: it has parts under every gate that depends on both inputs.
const SPLIT: [u8; 8] = [0, 1, 0, 1, 0, 1, 0, 1];

// XOR of the first two variables where the third is 0, and OR where it is 1: no parts under OR, AND or XOR, with or without an inverted input.
const UNSPLIT: [u8; 8] = [0, 1, 1, 0, 0, 1, 1, 1];

// Two codes above 2.
const WRONG: [u8; 8] = [0, 1, 0, 1, 0, 3, 0, 255];

// A code above 2 in a table without parts.
const WRONG_UNSPLIT: [u8; 8] = [0, 1, 1, 0, 0, 3, 1, 1];

// The groups a and b of a table of three variables.
const ASK: Request = Request {
    variables: 3,
    gate: 0,
    left: 1,
    right: 2,
};

const SAME: Request = Request { right: 1, ..ASK };

const NO_GATE: Request = Request { gate: 1, ..ASK };

const NO_GATE_SAME: Request = Request {
    right: 1,
    ..NO_GATE
};

const TOO_MANY: Request = Request {
    variables: 11,
    ..ASK
};

// Every refusal alone.
pub const ALONE: [Case; 20] = [
    Case {
        name: "groups a and b",
        ask: ASK,
        lengths: FIT,
        codes: SPLIT,
        expected: Ok(()),
    },
    Case {
        name: "rows that are longer",
        ask: ASK,
        lengths: LONG,
        codes: SPLIT,
        expected: Ok(()),
    },
    Case {
        name: "0 variables",
        ask: Request {
            variables: 0,
            ..ASK
        },
        lengths: LONG,
        codes: SPLIT,
        expected: Err(SplitRefusal::Variables),
    },
    Case {
        name: "11 variables",
        ask: TOO_MANY,
        lengths: LONG,
        codes: SPLIT,
        expected: Err(SplitRefusal::Variables),
    },
    Case {
        name: "255 variables",
        ask: Request {
            variables: 255,
            ..ASK
        },
        lengths: LONG,
        codes: SPLIT,
        expected: Err(SplitRefusal::Variables),
    },
    Case {
        name: "the table row one too short",
        ask: ASK,
        lengths: SHORT_TABLE,
        codes: SPLIT,
        expected: Err(SplitRefusal::TooShort),
    },
    Case {
        name: "the left row one too short",
        ask: ASK,
        lengths: SHORT_LEFT,
        codes: SPLIT,
        expected: Err(SplitRefusal::TooShort),
    },
    Case {
        name: "the right row one too short",
        ask: ASK,
        lengths: SHORT_RIGHT,
        codes: SPLIT,
        expected: Err(SplitRefusal::TooShort),
    },
    Case {
        name: "the first work row one too short",
        ask: ASK,
        lengths: SHORT_FIRST,
        codes: SPLIT,
        expected: Err(SplitRefusal::TooShort),
    },
    Case {
        name: "the second work row one too short",
        ask: ASK,
        lengths: SHORT_SECOND,
        codes: SPLIT,
        expected: Err(SplitRefusal::TooShort),
    },
    Case {
        name: "codes above 2 at 5 and 7",
        ask: ASK,
        lengths: FIT,
        codes: WRONG,
        expected: Err(SplitRefusal::Code { index: 5 }),
    },
    Case {
        name: "no gate of number 1",
        ask: NO_GATE,
        lengths: FIT,
        codes: SPLIT,
        expected: Err(SplitRefusal::Gate),
    },
    Case {
        name: "groups a and a",
        ask: SAME,
        lengths: FIT,
        codes: SPLIT,
        expected: Err(SplitRefusal::Groups),
    },
    Case {
        name: "an empty left group",
        ask: Request { left: 0, ..ASK },
        lengths: FIT,
        codes: SPLIT,
        expected: Err(SplitRefusal::Groups),
    },
    Case {
        name: "an empty right group",
        ask: Request { right: 0, ..ASK },
        lengths: FIT,
        codes: SPLIT,
        expected: Err(SplitRefusal::Groups),
    },
    Case {
        name: "groups ab and bc",
        ask: Request {
            left: 3,
            right: 6,
            ..ASK
        },
        lengths: FIT,
        codes: SPLIT,
        expected: Err(SplitRefusal::Groups),
    },
    Case {
        name: "a left group with d",
        ask: Request { left: 9, ..ASK },
        lengths: FIT,
        codes: SPLIT,
        expected: Err(SplitRefusal::Groups),
    },
    Case {
        name: "a right group with d",
        ask: Request { right: 10, ..ASK },
        lengths: FIT,
        codes: SPLIT,
        expected: Err(SplitRefusal::Groups),
    },
    Case {
        name: "a right group with the last digit",
        ask: Request {
            right: 32768,
            ..ASK
        },
        lengths: FIT,
        codes: SPLIT,
        expected: Err(SplitRefusal::Groups),
    },
    Case {
        name: "a table without parts",
        ask: ASK,
        lengths: FIT,
        codes: UNSPLIT,
        expected: Err(SplitRefusal::NoPair),
    },
];

// Any two refusals together: the earlier check answers.
pub const TOGETHER: [Case; 15] = [
    Case {
        name: "11 variables and short rows",
        ask: TOO_MANY,
        lengths: FIT,
        codes: SPLIT,
        expected: Err(SplitRefusal::Variables),
    },
    Case {
        name: "11 variables and a code above 2",
        ask: TOO_MANY,
        lengths: LONG,
        codes: WRONG,
        expected: Err(SplitRefusal::Variables),
    },
    Case {
        name: "11 variables and no such gate",
        ask: Request {
            gate: 1,
            ..TOO_MANY
        },
        lengths: LONG,
        codes: SPLIT,
        expected: Err(SplitRefusal::Variables),
    },
    Case {
        name: "11 variables and groups a and a",
        ask: Request {
            right: 1,
            ..TOO_MANY
        },
        lengths: LONG,
        codes: SPLIT,
        expected: Err(SplitRefusal::Variables),
    },
    Case {
        name: "11 variables and no parts",
        ask: TOO_MANY,
        lengths: LONG,
        codes: UNSPLIT,
        expected: Err(SplitRefusal::Variables),
    },
    Case {
        name: "a short row and a code above 2",
        ask: ASK,
        lengths: SHORT_TABLE,
        codes: WRONG,
        expected: Err(SplitRefusal::TooShort),
    },
    Case {
        name: "a short row and no such gate",
        ask: NO_GATE,
        lengths: SHORT_LEFT,
        codes: SPLIT,
        expected: Err(SplitRefusal::TooShort),
    },
    Case {
        name: "a short row and groups a and a",
        ask: SAME,
        lengths: SHORT_SECOND,
        codes: SPLIT,
        expected: Err(SplitRefusal::TooShort),
    },
    Case {
        name: "a short row and no parts",
        ask: ASK,
        lengths: SHORT_FIRST,
        codes: UNSPLIT,
        expected: Err(SplitRefusal::TooShort),
    },
    Case {
        name: "a code above 2 and no such gate",
        ask: NO_GATE,
        lengths: FIT,
        codes: WRONG,
        expected: Err(SplitRefusal::Code { index: 5 }),
    },
    Case {
        name: "a code above 2 and groups a and a",
        ask: SAME,
        lengths: FIT,
        codes: WRONG,
        expected: Err(SplitRefusal::Code { index: 5 }),
    },
    Case {
        name: "a code above 2 and no parts",
        ask: ASK,
        lengths: FIT,
        codes: WRONG_UNSPLIT,
        expected: Err(SplitRefusal::Code { index: 5 }),
    },
    Case {
        name: "no such gate and groups a and a",
        ask: NO_GATE_SAME,
        lengths: FIT,
        codes: SPLIT,
        expected: Err(SplitRefusal::Gate),
    },
    Case {
        name: "no such gate and no parts",
        ask: NO_GATE,
        lengths: FIT,
        codes: UNSPLIT,
        expected: Err(SplitRefusal::Gate),
    },
    Case {
        name: "groups a and a and no parts",
        ask: SAME,
        lengths: FIT,
        codes: UNSPLIT,
        expected: Err(SplitRefusal::Groups),
    },
];
