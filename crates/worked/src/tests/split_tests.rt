// Questions about groups, gates, stacks and splits, put to the code itself: expected values are worked out by hand from the rules.
use super::is_refused;
use gatesets::{GateSet, LeftInverted, LentRows, Opposite, PairOf, Request};
use orset::Or;
use std::test::Fail;
use tables::{Refusal, Stack, StackRefusal, complement_code, gate_code, ignores};
use xorset::Xor;

#[test]
fn rows_that_ignore_a_group(rt: HostRuntime) {
    let codes: [u8; 4] = [0, 2, 0, 2];
    assert_eq!(rt; ignores(&codes, 2, 2).ok(), Some(true));
    assert_eq!(rt; ignores(&codes, 2, 1).ok(), Some(false));
    assert_eq!(rt; ignores(&codes, 2, 0).ok(), Some(true));
    // A digit beyond the variables names none, and entries beyond the table do not count.
    assert_eq!(rt; ignores(&codes, 2, 0x8002).ok(), Some(true));
    assert_eq!(rt; ignores(&codes, 1, 1).ok(), Some(false));
    assert_eq!(rt; ignores(&[1, 1, 7, 9], 1, 1).ok(), Some(true));
    let values = [true, true, false, true];
    assert_eq!(rt; ignores(&values, 2, 1).ok(), Some(false));
    assert_eq!(rt; ignores(&values, 1, 3).ok(), Some(true));
}

#[test]
fn refusals_of_the_ignore_test(rt: HostRuntime) -> Result<(), Fail> {
    for (variables, number) in [(0, 1), (11, 1), (255, 1), (3, 2), (10, 2)] {
        is_refused(&rt, ignores(&[true; 7], variables, 1), number, 0)?;
    }
    Ok(())
}

#[test]
fn stack_gives_back_the_latest_and_uses_cells_again(rt: HostRuntime) {
    let mut cells: [u16; 2] = [7, 7];
    let mut stack = Stack::new(&mut cells);
    assert_eq!(rt; stack.pop(), Err(StackRefusal::Empty));
    assert_eq!(rt; stack.push(1), Ok(()));
    assert_eq!(rt; stack.push(2), Ok(()));
    assert_eq!(rt; stack.push(3), Err(StackRefusal::Full));
    assert_eq!(rt; stack.len(), 2);
    assert_eq!(rt; stack.pop(), Ok(2));
    assert_eq!(rt; stack.push(4), Ok(()));
    assert_eq!(rt; stack.pop(), Ok(4));
    assert_eq!(rt; stack.pop(), Ok(1));
    assert_eq!(rt; stack.len(), 0);
    assert_eq!(rt; StackRefusal::Full.number(), 23);
    assert_eq!(rt; StackRefusal::Empty.number(), 22);
    assert_eq!(rt; StackRefusal::Full.spot(), 0);
}

#[test]
fn codes_of_gates(rt: HostRuntime) {
    assert_eq!(rt; gate_code(Or.answers(0)), 14);
    assert_eq!(rt; gate_code(Opposite(Or).answers(0)), 8);
    assert_eq!(rt; gate_code(Xor.answers(0)), 6);
    assert_eq!(rt; gate_code(LeftInverted(Or).answers(0)), 11);
    assert_eq!(rt; gate_code(Opposite(Xor).answers(0)), 9);
    assert_eq!(rt; gate_code([true, false, false, false]), 1);
    assert_eq!(rt; gate_code(Opposite(Or).answers(1)), 0);
    assert_eq!(rt; complement_code(0), 1);
    assert_eq!(rt; complement_code(1), 0);
    assert_eq!(rt; complement_code(2), 2);
    assert_eq!(rt; complement_code(255), 255);
}

// A split of a table of two variables, with a row that is one longer, under groups a and b: parts or the number of the refusal, and both part rows.
fn split_two<S: GateSet>(set: &S, gate: u8, codes: [u8; 4]) -> (Result<(), u8>, [u8; 5], [u8; 5]) {
    let ask = Request {
        variables: 2,
        gate,
        left: 1,
        right: 2,
    };
    let mut table = codes;
    let mut left = [7; 5];
    let mut right = [7; 5];
    let mut first = [0; 8];
    let mut second = [0; 8];
    let mut rows = LentRows {
        table: &mut table,
        left: &mut left,
        right: &mut right,
        first: &mut first,
        second: &mut second,
    };
    let answer = set
        .split(ask, &mut rows)
        .map_err(|refusal| refusal.number());
    (answer, left, right)
}

#[test]
fn splits_leave_codes_past_the_parts(rt: HostRuntime) {
    assert!(rt; split_two(&Or, 0, [0, 2, 2, 1]) == (Ok(()), [0, 2, 0, 2, 7], [0, 0, 1, 1, 7]));
    assert!(rt; split_two(&Or, 0, [2, 2, 2, 1]) == (Ok(()), [2, 2, 2, 2, 7], [2, 2, 1, 1, 7]));
    assert!(rt; split_two(&Xor, 0, [2, 1, 0, 1]) == (Ok(()), [0, 1, 0, 1, 7], [0, 0, 0, 0, 7]));
    assert!(rt; split_two(&Opposite(Or), 0, [0, 1, 1, 1]) == (Err(20), [7; 5], [7; 5]));
}

#[test]
fn pairs_of_sets_end_at_sixteen(rt: HostRuntime) {
    let two = PairOf(Or, Xor);
    let four = PairOf(two, two);
    let eight = PairOf(four, four);
    let most = PairOf(PairOf(eight, eight), Opposite(Or));
    assert_eq!(rt; two.count(), 2);
    assert_eq!(rt; most.count(), 16);
    assert_eq!(rt; gate_code(most.answers(15)), 6);
    assert_eq!(rt; gate_code(most.answers(16)), 0);
    assert!(rt; split_two(&most, 15, [0, 1, 1, 0]) == (Ok(()), [0, 1, 0, 1, 7], [0, 0, 1, 1, 7]));
    assert!(rt; split_two(&most, 14, [0, 1, 1, 0]) == (Err(20), [7; 5], [7; 5]));
    assert!(rt; split_two(&most, 16, [0, 1, 1, 0]) == (Err(8), [7; 5], [7; 5]));
    let late = PairOf(Opposite(Or), LeftInverted(two));
    assert_eq!(rt; gate_code(late.answers(0)), 8);
    assert_eq!(rt; gate_code(late.answers(1)), 11);
    assert_eq!(rt; gate_code(late.answers(2)), 9);
    assert_eq!(rt; gate_code(late.answers(3)), 0);
}
