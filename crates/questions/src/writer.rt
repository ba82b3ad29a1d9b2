ghost use Rattle.std.specs.Prelude.{◌≡◌, ◌+◌, ◌-◌, ◌*◌, ◌^◌, ◌<◌, ◌≤◌, min, if◌then◌else◌, ◌++◌, length, take, drop, position, IfOk, MatchResult, EachIndex, ◌==◌, nat_lt, slice_index};
ghost use Rattle.std.specs.List.{list_any};
ghost use Rattle.questions.specs.Writing.{digit_of, packed, entry_in, writing, out_after, ReadsBack, Writable, Unwritable};
ghost use Rattle.questions.specs.declared.form.Form.TheVariants.{TwoRows, OneRow};

use super::fault::WriteFault;
use super::form::{Form, Side};
use super::heading::Heading;
use super::layout::Layout;
use tables::{points, wrong_code};

// The form of a table: one row serves as both where no code is free.
fn table_form(table: &[u8]) -> Form
    ensures { result ≡ (if list_any (λ code. code == 2) table.now then TwoRows else OneRow) }
{
    if table.contains(&2) {
        Form::TwoRows
    } else {
        Form::OneRow
    }
}

// The checks of a table of as many codes as its size asks, for an output row of so many bytes.
#[tactic(auto, using(crate::proofs::Fronts::form_by_any, crate::proofs::Fronts::wrong_by_position))]
fn check_table(variables: u8, table: &[u8], room: usize) -> Result<Layout, WriteFault>
    requires { length table.now ≡ 2 ^ variables }
    ensures { MatchResult result (Writable variables table.now room) (Unwritable variables table.now room) }
{
    let layout = Layout::new(variables, table_form(table)).ok_or(WriteFault::Variables)?;
    if room < layout.length {
        return Err(WriteFault::TooShort);
    }
    match wrong_code(table) {
        Some(index) => Err(WriteFault::Code { index }),
        None => Ok(layout),
    }
}

// Packs the digits of up to eight codes into a byte.
fn pack(codes: &[u8], side: Side) -> u8
    requires { length codes.now ≤ 8 }
    ensures { result ≡ packed (λ k. digit_of side (slice_index codes.now k)) (length codes.now) }
{
    let mut byte = 0;
    for (place, code) in codes.iter().enumerate() {
        byte += side.digit(*code) << place;
    }
    byte
}

// Writes a row of a table: eight digits to a byte, or all of them where the table has fewer.
fn put_row(row: &mut [u8], table: &[u8], side: Side)
    requires { EachIndex row.old (λ j. 8 * j + min 8 (length table.now) ≤ length table.now) }
    ensures { EachIndex row.new (λ j. slice_index row.new j ≡ packed (λ k. digit_of side (slice_index table.now (8 * j + k))) (min 8 (length table.now))) }
{
    let count = table.len().min(8);
    for (place, byte) in row.iter_mut().enumerate() {
        *byte = pack(&table[8 * place..8 * place + count], side);
    }
}

// Writes the whole entry of a table.
fn put_entry(entry: &mut [u8], table: &[u8], layout: Layout)
    requires entry { length entry.old ≡ layout.length }
    requires table { length table.now ≡ layout.points }
    ensures { entry.new ≡ entry_in layout.form layout.variables table.now }
{
    entry[0] = u8::from(Heading {
        variables: layout.variables,
        form: layout.form,
    });
    put_row(&mut entry[1..1 + layout.row], table, Side::Lower);
    match layout.form {
        Form::TwoRows => put_row(&mut entry[layout.upper..], table, Side::Upper),
        Form::OneRow => {}
    }
}

// Writes the entry of a table into the front of an output row, and answers its layout.
pub fn write_table(variables: u8, codes: &[u8], out: &mut [u8]) -> Result<Layout, WriteFault>
    ensures { MatchResult result
        (λ layout. Writable variables codes.now (length out.old) layout × (out.new ≡ entry_in layout.form layout.variables codes.now ++ drop layout.length out.old))
        (λ fault. Unwritable variables codes.now (length out.old) fault × (out.new ≡ out.old)) }
{
    let points = points(variables).ok_or(WriteFault::Variables)?;
    let table = codes.get(..points).ok_or(WriteFault::TooShort)?;
    let layout = check_table(variables, table, out.len())?;
    put_entry(&mut out[..layout.length], table, layout);
    Ok(layout)
}

// Writes the entry of a table into the front of an output row, and answers its length.
pub fn write_entry(variables: u8, codes: &[u8], out: &mut [u8]) -> Result<usize, WriteFault>
    ensures answer { result ≡ writing variables codes.now (length out.old) }
    ensures out { out.new ≡ out_after result variables codes.now out.old }
    ensures reads_back { IfOk result (λ size. ReadsBack variables codes.now (take size out.new)) }
{
    let layout = write_table(variables, codes, out)?;
    Ok(layout.length)
}
