ghost use Rattle.std.specs.Prelude.{◌≡◌, ℕ, ◌<◌, ◌↔◌, length, Some, None, IsTrue, MatchResult};
ghost use Rattle.std.specs.List.{slice_get};
ghost use Rattle.tables.specs.Checks.{first};
ghost use Rattle.tables.specs.Groups.{Ignores, clear};
ghost use Rattle.tables.specs.Ignoring.{ignore_checks, ignore_number, ignore_spot};

use super::entry::Entry;
use super::group::clear_group;
use super::refusal::Refusal;
use super::size::points;

// Why the ignore-test refuses.
#[derive(Clone, Copy, PartialEq, Eq, Debug)]
pub enum IgnoreRefusal {
    // The number of variables is not from 1 to 10.
    Size,
    // The row has fewer entries than there are assignments.
    Short,
}

impl Refusal for IgnoreRefusal {
    ghost numbered = { ignore_number };

    ghost spotted = { ignore_spot };

    fn number(&self) -> u8 {
        match self {
            IgnoreRefusal::Size => 1,
            IgnoreRefusal::Short => 2,
        }
    }

    fn spot(&self) -> usize {
        match self {
            IgnoreRefusal::Size | IgnoreRefusal::Short => 0,
        }
    }
}

// Whether a row over so many variables ignores a group: its entries are equal wherever two assignments differ in none but the group's variables.
pub fn ignores<T: Entry>(row: &[T], variables: u8, group: u16) -> Result<bool, IgnoreRefusal>
    ensures { MatchResult result
        (λ ignored. (first (ignore_checks variables (length row.now)) ≡ None)
        × (IsTrue ignored ↔ Ignores variables group (slice_get row.now)))
        (λ refusal. first (ignore_checks variables (length row.now)) ≡ Some refusal) }
{
    let points = points(variables).ok_or(IgnoreRefusal::Size)?;
    if row.len() < points {
        return Err(IgnoreRefusal::Short);
    }
    Ok(cleared_alike(&row[0..points], group))
}

// Whether each entry is equal to the one at its assignment cleared of the group.
fn cleared_alike<T: Entry>(row: &[T], group: u16) -> bool
    ensures { IsTrue result ↔ ((i : ℕ) → i < length row.now → slice_get row.now i ≡ slice_get row.now (clear group i)) }
{
    row.iter()
        .enumerate()
        .all(|(index, entry)| *entry == row[clear_group(group, index)])
}
