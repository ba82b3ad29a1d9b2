// Puts questions to a set of gates, and tells whether the answers are the expected ones.
use crate::cases::{ALONE, Case, LONGEST, LONGEST_WORK, TOGETHER};
use gatesets::{GateSet, LentRows, SplitRefusal};
use std::ops::AddAssign;
use std::{fmt, io};
use tables::Refusal;

const FREE: u8 = 2;

// What the part rows hold before a question.
const UNTOUCHED: u8 = 7;

// How many answers were the expected ones, and after how many refusals the rows were as before.
#[derive(Clone, Copy, Default)]
pub struct Tally {
    expected: u64,
    others: u64,
    refused: u64,
    kept: u64,
}

impl AddAssign for Tally {
    fn add_assign(&mut self, other: Tally) {
        self.expected = self.expected.saturating_add(other.expected);
        self.others = self.others.saturating_add(other.others);
        self.refused = self.refused.saturating_add(other.refused);
        self.kept = self.kept.saturating_add(other.kept);
    }
}

impl fmt::Display for Tally {
    fn fmt<W: fmt::Write>(&self, f: &mut fmt::Formatter<W>) -> fmt::Result {
        let Tally {
            expected,
            others,
            refused,
            kept,
        } = self;
        write!(
            f,
            "questions answered as expected: {expected}, otherwise: {others}; refused: {refused}, of these with rows as before: {kept}"
        )
    }
}

// What came of a question.
#[derive(Clone, Copy)]
struct Outcome {
    answer: Result<(), SplitRefusal>,
    // Whether the table and both part rows are as before.
    kept: bool,
}

impl Outcome {
    // The tally of this outcome alone.
    fn tally(&self, expected: Result<(), SplitRefusal>) -> Tally {
        let met = self.answer == expected;
        let refused = self.answer.is_err();
        Tally {
            expected: met as u64,
            others: !met as u64,
            refused: refused as u64,
            kept: (refused && self.kept) as u64,
        }
    }
}

// A table with the codes given first, and free beyond them.
fn table_of(codes: &[u8]) -> [u8; LONGEST] {
    let mut table = [FREE; LONGEST];
    for (to, code) in table.iter_mut().zip(codes) {
        *to = *code;
    }
    table
}

// Puts one question to a set.
fn put<S: GateSet>(set: &S, case: &Case) -> Outcome {
    let before = table_of(&case.codes);
    let mut table = before;
    let mut left = [UNTOUCHED; LONGEST];
    let mut right = [UNTOUCHED; LONGEST];
    let mut first = [0; LONGEST_WORK];
    let mut second = [0; LONGEST_WORK];
    let mut rows = LentRows {
        table: &mut table[0..case.lengths.table.min(LONGEST)],
        left: &mut left[0..case.lengths.left.min(LONGEST)],
        right: &mut right[0..case.lengths.right.min(LONGEST)],
        first: &mut first[0..case.lengths.first.min(LONGEST_WORK)],
        second: &mut second[0..case.lengths.second.min(LONGEST_WORK)],
    };
    let answer = set.split(case.ask, &mut rows);
    let untouched = [UNTOUCHED; LONGEST];
    Outcome {
        answer,
        kept: table == before && left == untouched && right == untouched,
    }
}

// Puts questions to a set, and counts.
fn count<S: GateSet>(set: &S, cases: &[Case]) -> Tally {
    let mut tally = Tally::default();
    for case in cases {
        tally += put(set, case).tally(case.expected);
    }
    tally
}

// Prints the answer of a set to each question.
fn print_answers<S: GateSet>(rt: &HostRuntime, set: &S, cases: &[Case]) -> io::Result<()> {
    for case in cases {
        let name = case.name;
        match put(set, case).answer {
            Ok(()) => println!(rt; "{name}: parts")?,
            Err(refusal) => {
                let number = refusal.number();
                let spot = refusal.spot();
                println!(rt; "{name}: refused: number {number}, spot {spot}")?
            }
        }
    }
    Ok(())
}

// Prints each question to a set, and its answer.
pub fn print_questions<S: GateSet>(rt: &HostRuntime, name: &str, set: &S) -> io::Result<()> {
    println!(rt; "questions to {name}, each with its answer:")?;
    print_answers(rt, set, &ALONE)?;
    println!(rt; "questions to {name} with two reasons to refuse:")?;
    print_answers(rt, set, &TOGETHER)
}

// Puts every question to a set, and counts.
pub fn tally_questions<S: GateSet>(set: &S) -> Tally {
    let mut tally = count(set, &ALONE);
    tally += count(set, &TOGETHER);
    tally
}
