// A search through all functions of up to three variables. A function is a number: the digit of weight 2 ^ i is its value at assignment i.
use gatesets::Request;
use tables::{ignores, points};

// How many functions of three variables there are.
const FUNCTIONS: usize = 256;

// Which functions a gate makes of two functions that each ignore a group.
#[derive(Clone, Copy)]
pub struct Reached {
    functions: [bool; FUNCTIONS],
}

// How many rows there are with one of so many entries at each assignment of so many variables.
pub fn count_rows(entries: usize, variables: u8) -> usize {
    let points = points(variables).unwrap_or(0);
    entries.saturating_pow(points as u32)
}

// The value of a gate for two inputs.
pub fn join(gate: [bool; 4], a: bool, b: bool) -> bool {
    let [neither, right, left, both] = gate;
    match (a, b) {
        (false, false) => neither,
        (false, true) => right,
        (true, false) => left,
        (true, true) => both,
    }
}

// Writes the digits of a number to a base into a row, the lowest first; to the base 0 as to 1.
pub fn write_digits(row: &mut [u8], number: usize, base: u8) {
    let base = base.max(1) as usize;
    let mut rest = number;
    for digit in row.iter_mut() {
        *digit = (rest % base) as u8;
        rest /= base;
    }
}

// The number whose digit of weight 2 ^ i says whether a row has this entry at i.
fn number_of<T: PartialEq>(row: &[T], sought: &T) -> usize {
    row.iter().rev().fold(0usize, |number, entry| {
        number
            .wrapping_mul(2)
            .wrapping_add((entry == sought) as usize)
    })
}

// The truth values of a function.
fn values(function: usize) -> [bool; 8] {
    let mut digits = [0; 8];
    write_digits(&mut digits, function, 2);
    let mut row = [false; 8];
    for (value, digit) in row.iter_mut().zip(&digits) {
        *value = *digit == 1;
    }
    row
}

// Marks the functions of so many variables that ignore a group.
fn ignoring(variables: u8, group: u16) -> [bool; FUNCTIONS] {
    let mut marks = [false; FUNCTIONS];
    for (function, mark) in marks.iter_mut().enumerate().take(count_rows(2, variables)) {
        *mark = matches!(ignores(&values(function), variables, group), Ok(true));
    }
    marks
}

// What a gate makes of two functions, at the assignments of so many variables.
fn joined(gate: [bool; 4], variables: u8, first: usize, second: usize) -> usize {
    let points = points(variables).unwrap_or(0);
    let lefts = values(first);
    let rights = values(second);
    let mut row = [false; 8];
    for ((value, a), b) in row.iter_mut().zip(&lefts).zip(&rights).take(points) {
        *value = join(gate, *a, *b);
    }
    number_of(&row, &true)
}

impl Reached {
    // Every function that a gate makes of a first function that ignores the right group and a second that ignores the left.
    pub fn by(gate: [bool; 4], ask: Request) -> Reached {
        let mut reached = Reached {
            functions: [false; FUNCTIONS],
        };
        let seconds = ignoring(ask.variables, ask.left);
        for (first, ignores) in ignoring(ask.variables, ask.right).iter().enumerate() {
            if *ignores {
                reached.add_joined(gate, ask.variables, first, &seconds);
            }
        }
        reached
    }

    // Adds what the gate makes of one first function and each of the second functions.
    fn add_joined(
        &mut self,
        gate: [bool; 4],
        variables: u8,
        first: usize,
        seconds: &[bool; FUNCTIONS],
    ) {
        for (second, ignores) in seconds.iter().enumerate() {
            if *ignores {
                self.add(joined(gate, variables, first, second));
            }
        }
    }

    fn add(&mut self, function: usize) {
        if let Some(mark) = self.functions.get_mut(function) {
            *mark = true;
        }
    }

    // Whether a table admits one of the functions: it is 1 at each code 1, and 0 at each code 0.
    pub fn admitted(&self, codes: &[u8]) -> bool {
        let ones = number_of(codes, &1);
        let zeros = number_of(codes, &0);
        self.functions.iter().enumerate().any(|(function, reached)| *reached
            && function & ones == ones
            && function & zeros == 0)
    }
}
