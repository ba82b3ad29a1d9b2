// Questions about the dictionary, put to the code itself: expected values are worked out by hand from the layout.
use questions::{Form, read_entry, write_entry};
use std::process::Abort;
use std::test::Fail;
use tables::{Refusal, table_in};

mod split_tests;

// A call is refused with a number and a spot.
fn is_refused<A: Drop, R: Refusal + Drop>(
    rt: &impl Abort,
    answer: Result<A, R>,
    number: u8,
    spot: usize,
) -> Result<(), Fail> {
    match answer {
        Ok(_) => Err(Fail::new("the call is not refused")),
        Err(refusal) => {
            assert_eq!(rt; refusal.number(), number);
            assert_eq!(rt; refusal.spot(), spot);
            Ok(())
        }
    }
}

// The entry at a byte number is refused with a number and a spot, and the row is left.
fn refused(
    rt: &impl Abort,
    file: &[u8],
    at: usize,
    room: usize,
    number: u8,
    spot: usize,
) -> Result<(), Fail> {
    let mut row = [7; 16];
    let room = room.min(16);
    is_refused(rt, read_entry(file, at, &mut row[0..room]), number, spot)?;
    assert!(rt; row == [7; 16]);
    Ok(())
}

#[test]
fn reader_without_a_byte(rt: HostRuntime) -> Result<(), Fail> {
    refused(&rt, &[], 0, 16, 2, 0)?;
    refused(&rt, &[0x11, 0x01], 2, 16, 2, 0)?;
    refused(&rt, &[0x11, 0x01], 18_446_744_073_709_551_615, 16, 2, 0)
}

#[test]
fn reader_of_other_first_bytes(rt: HostRuntime) -> Result<(), Fail> {
    for first in 0..=255u8 {
        let known = (1 <= first && first <= 10) || (17 <= first && first <= 26);
        let expected = if known { 2 } else { 1 };
        refused(&rt, &[first], 0, 0, expected, 0)?;
    }
    Ok(())
}

#[test]
fn reader_of_short_entries(rt: HostRuntime) -> Result<(), Fail> {
    refused(&rt, &[0x02, 0x0E], 0, 16, 2, 0)?;
    refused(&rt, &[0x12], 0, 16, 2, 0)?;
    refused(&rt, &[0x12, 0x06], 0, 3, 2, 0)?;
    refused(&rt, &[0x04, 0xFF, 0xFF, 0xFF], 0, 16, 2, 0)
}

#[test]
fn reader_of_spare_digits_and_crossed_rows(rt: HostRuntime) -> Result<(), Fail> {
    refused(&rt, &[0x01, 0x04, 0x03], 0, 2, 3, 1)?;
    refused(&rt, &[0x01, 0x00, 0x80], 0, 2, 3, 2)?;
    refused(&rt, &[0x11, 0x04], 0, 2, 3, 1)?;
    refused(&rt, &[0x12, 0x10], 0, 4, 3, 1)?;
    refused(&rt, &[0x02, 0x0E, 0x11], 0, 4, 3, 2)?;
    refused(&rt, &[0x02, 0x0E, 0x01], 0, 4, 4, 1)?;
    refused(&rt, &[0x12, 0x06, 0x01, 0x02, 0x01], 2, 2, 4, 1)?;
    refused(&rt, &[0x04, 0x00, 0x80, 0xFF, 0x7F], 0, 16, 4, 15)
}

// A table is refused with a number and a spot, and the output row is left.
fn unwritten(
    rt: &impl Abort,
    variables: u8,
    codes: &[u8],
    room: usize,
    number: u8,
    spot: usize,
) -> Result<(), Fail> {
    let mut out = [9; 8];
    let room = room.min(8);
    let answer = write_entry(variables, codes, &mut out[0..room]);
    is_refused(rt, answer, number, spot)?;
    assert!(rt; out == [9; 8]);
    Ok(())
}

#[test]
fn writer_refusals(rt: HostRuntime) -> Result<(), Fail> {
    unwritten(&rt, 0, &[], 8, 1, 0)?;
    unwritten(&rt, 11, &[], 0, 1, 0)?;
    unwritten(&rt, 255, &[0; 4], 8, 1, 0)?;
    unwritten(&rt, 2, &[0, 1, 3], 8, 2, 0)?;
    unwritten(&rt, 2, &[0, 1, 1, 0], 1, 2, 0)?;
    unwritten(&rt, 2, &[3, 2, 1, 0], 2, 2, 0)?;
    unwritten(&rt, 2, &[0, 1, 3, 9], 2, 5, 2)?;
    unwritten(&rt, 2, &[2, 1, 1, 255], 3, 5, 3)
}

#[test]
fn codes_and_bytes_past_the_table_stay(rt: HostRuntime) -> Result<(), Fail> {
    let mut out = [9; 5];
    assert_eq!(rt; write_entry(2, &[0, 2, 1, 2, 77], &mut out).ok(), Some(3));
    assert!(rt; out == [0x02, 0x04, 0x0E, 9, 9]);
    let mut row = [7; 6];
    let entry = read_entry(&[0xFF, 0x02, 0x04, 0x0E, 0xFF], 1, &mut row)
        .ok()
        .ok_or("refused")?;
    assert!(rt; row == [0, 2, 1, 2, 7, 7]);
    assert_eq!(rt; entry.variables, 2);
    assert_eq!(rt; entry.form, Form::TwoRows);
    assert_eq!(rt; entry.next, 4);
    Ok(())
}

// The codes from 0 to the highest in turn.
fn pattern(highest: u8) -> [u8; 1024] {
    let mut codes = [0; 1024];
    for (code, next) in codes.iter_mut().zip((0..=highest).cycle()) {
        *code = next;
    }
    codes
}

// A table of so many variables is written in so many bytes, and read back behind other bytes.
fn there_and_back(
    rt: &impl Abort,
    variables: u8,
    codes: &[u8],
    size: usize,
    form: Form,
) -> Result<(), Fail> {
    let mut file = [0xFF; 300];
    assert_eq!(rt;
        write_entry(variables, codes, &mut file[5..300]).ok(),
        Some(size)
    );
    assert!(rt; file.iter().skip(size.saturating_add(5)).copied().min() == Some(0xFF));
    let mut row = [7; 1024];
    let entry = read_entry(&file, 5, &mut row).ok().ok_or("refused")?;
    assert_eq!(rt; entry.variables, variables);
    assert_eq!(rt; entry.form, form);
    assert_eq!(rt; entry.next, size.saturating_add(5));
    assert!(rt; table_in(&row, variables) == table_in(codes, variables));
    Ok(())
}

#[test]
fn every_size_in_both_forms(rt: HostRuntime) -> Result<(), Fail> {
    let sizes: [(u8, usize, usize); 10] = [
        (1, 3, 2),
        (2, 3, 2),
        (3, 3, 2),
        (4, 5, 3),
        (5, 9, 5),
        (6, 17, 9),
        (7, 33, 17),
        (8, 65, 33),
        (9, 129, 65),
        (10, 257, 129),
    ];
    for (variables, two, one) in sizes {
        there_and_back(&rt, variables, &[2; 1024], two, Form::TwoRows)?;
        there_and_back(&rt, variables, &pattern(1), one, Form::OneRow)?;
        if variables > 1 {
            there_and_back(&rt, variables, &pattern(2), two, Form::TwoRows)?;
        }
    }
    Ok(())
}
