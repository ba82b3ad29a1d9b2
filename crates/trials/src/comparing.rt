// Compares the splits of every table of up to three variables with the search.
use crate::brute::{Reached, count_rows, join, write_digits};
use gatesets::{GateSet, LentRows, Request, SplitRefusal};
use std::fmt;
use std::ops::AddAssign;
use tables::{ignores, points, table_in};

// The length of the rows: one more than a table of three variables has codes.
const LENGTH: usize = 9;

// What a row holds where there is neither a table nor a part.
const BEYOND: u8 = 7;

// How many splits were compared, how they ended, and how many differ from the search.
#[derive(Clone, Copy, Default)]
pub struct Compared {
    pub parts: u64,
    pub none: u64,
    pub different: u64,
}

impl AddAssign for Compared {
    fn add_assign(&mut self, other: Compared) {
        self.parts = self.parts.saturating_add(other.parts);
        self.none = self.none.saturating_add(other.none);
        self.different = self.different.saturating_add(other.different);
    }
}

impl fmt::Display for Compared {
    fn fmt<W: fmt::Write>(&self, f: &mut fmt::Formatter<W>) -> fmt::Result {
        let Compared {
            parts,
            none,
            different,
        } = self;
        let splits = parts.saturating_add(*none);
        write!(
            f,
            "splits compared: {splits}, with parts: {parts}, without: {none}, different: {different}"
        )
    }
}

// The table of a number: its digits to the base 3 are the codes.
fn table_of(variables: u8, number: usize) -> [u8; LENGTH] {
    let mut row = [BEYOND; LENGTH];
    let points = points(variables).unwrap_or(0).min(LENGTH);
    write_digits(&mut row[0..points], number, 3);
    row
}

// Whether a code allows a value.
fn allows(code: u8, value: bool) -> bool {
    code == 2 || code == value as u8
}

fn ignores_group(row: &[u8], variables: u8, group: u16) -> bool {
    matches!(ignores(row, variables, group), Ok(true))
}

// Whether a row begins with codes for every assignment, and holds beyond them what it held.
fn is_part(row: &[u8; LENGTH], variables: u8) -> bool {
    let (codes, beyond) = row.split_at(points(variables).unwrap_or(0).min(LENGTH));
    codes.iter().all(|code| *code <= 2) && beyond.iter().all(|code| *code == BEYOND)
}

// Whether each two values that two codes allow join to a value that the table's code allows.
fn joins_at(gate: [bool; 4], table: u8, left: u8, right: u8) -> bool {
    for a in [false, true] {
        for b in [false, true] {
            if allows(left, a) && allows(right, b) && !allows(table, join(gate, a, b)) {
                return false;
            }
        }
    }
    true
}

// A split that ended: what was asked, the table before and after, and the part rows.
#[derive(Clone, Copy)]
struct Ended {
    ask: Request,
    gate: [bool; 4],
    before: [u8; LENGTH],
    after: [u8; LENGTH],
    left: [u8; LENGTH],
    right: [u8; LENGTH],
}

impl Ended {
    // Whether the parts join to the table at every assignment.
    fn joins(&self) -> bool {
        let points = points(self.ask.variables).unwrap_or(0);
        let codes = self.before.iter().zip(&self.left).zip(&self.right);
        codes.take(points).all(|((table, left), right)| joins_at(self.gate, *table, *left, *right))
    }

    // Whether neither part depends on a variable on which the table does not.
    fn needs_no_other(&self) -> bool {
        let variables = self.ask.variables;
        [1, 2, 4].iter().all(|group| {
            !ignores_group(&self.before, variables, *group)
                || ignores_group(&self.left, variables, *group)
                    && ignores_group(&self.right, variables, *group)
        })
    }

    // Whether the part rows hold parts of the table.
    fn has_parts(&self) -> bool {
        let variables = self.ask.variables;
        is_part(&self.left, variables)
            && is_part(&self.right, variables)
            && ignores_group(&self.left, variables, self.ask.right)
            && ignores_group(&self.right, variables, self.ask.left)
            && self.joins()
            && self.needs_no_other()
    }

    // Whether the part rows are as they were.
    fn has_untouched_rows(&self) -> bool {
        self.left == [BEYOND; LENGTH] && self.right == [BEYOND; LENGTH]
    }
}

// Splits one table, and compares.
fn compare_table<S: GateSet>(set: &S, ask: Request, reached: &Reached, number: usize) -> Compared {
    let before = table_of(ask.variables, number);
    let mut after = before;
    let mut left = [BEYOND; LENGTH];
    let mut right = [BEYOND; LENGTH];
    let mut first = [0; 16];
    let mut second = [0; 16];
    let mut rows = LentRows {
        table: &mut after,
        left: &mut left,
        right: &mut right,
        first: &mut first,
        second: &mut second,
    };
    let result = set.split(ask, &mut rows);
    let ended = Ended {
        ask,
        gate: set.answers(ask.gate),
        before,
        after,
        left,
        right,
    };
    let admitted = reached.admitted(table_in(&before, ask.variables));
    let agrees = match result {
        Ok(()) => admitted && ended.has_parts(),
        Err(SplitRefusal::NoPair) => !admitted && ended.has_untouched_rows(),
        Err(_) => false,
    };
    Compared {
        parts: result.is_ok() as u64,
        none: result.is_err() as u64,
        different: !(agrees && ended.after == ended.before) as u64,
    }
}

// Splits every table of so many variables under two groups, and compares.
fn compare_tables<S: GateSet>(set: &S, ask: Request) -> Compared {
    let reached = Reached::by(set.answers(ask.gate), ask);
    let mut compared = Compared::default();
    for number in 0..count_rows(3, ask.variables) {
        compared += compare_table(set, ask, &reached, number);
    }
    compared
}

// Splits every table of so many variables by a gate under every lawful pair of groups, and compares.
pub fn compare_groups<S: GateSet>(set: &S, gate: u8, variables: u8) -> Compared {
    let groups = points(variables).unwrap_or(0).min(8) as u16;
    let mut compared = Compared::default();
    for left in 1..groups {
        for right in 1..groups {
            if left & right == 0 {
                let ask = Request {
                    variables,
                    gate,
                    left,
                    right,
                };
                compared += compare_tables(set, ask);
            }
        }
    }
    compared
}
