ghost use Rattle.std.specs.Prelude.{◌≡◌, ◌^◌, ◌↔◌, length, IsErr, IsTrue, MatchResult, OnOk};
ghost use Rattle.gatesets.specs.Rules.{no_pair, two_parts};
ghost use Rattle.orset.specs.Cells.{AllFree, LeftLaid, RightLaid, ZerosLaid, lacks_pair};
ghost use Rattle.orset.specs.Or.{or_rule};

use super::cells::Cells;
use gatesets::{NoPair, Request};

// Writes the parts of a table, or tells that it has no pair. All rows have one entry for each assignment.
pub(crate) fn write_parts(
    ask: Request,
    table: &[u8],
    left: &mut [u8],
    right: &mut [u8],
    first: &mut [u16],
    second: &mut [u16],
) -> Result<(), NoPair>
    requires table { length table.now ≡ 2 ^ ask.variables }
    requires parts { (length left.old ≡ length table.now) × (length right.old ≡ length table.now) }
    requires cells { (length first.old ≡ length table.now) × (length second.old ≡ length table.now) }
    ensures { MatchResult result
        (λ _. or_rule ask table.now ≡ two_parts left.new right.new)
        (λ _. (or_rule ask table.now ≡ no_pair) × (left.new ≡ left.old) × (right.new ≡ right.old)) }
{
    let mut lefts = Cells::free(ask.right, first);
    let mut rights = Cells::free(ask.left, second);
    lay_zeros(table, &mut lefts, &mut rights);
    lay_left_ones(table, &mut lefts, &rights)?;
    lay_right_ones(table, &lefts, &mut rights);
    lefts.write(ask.right, left);
    rights.write(ask.left, right);
    Ok(())
}

// Lays 0 at both cells of each code 0.
fn lay_zeros(table: &[u8], lefts: &mut Cells<'_>, rights: &mut Cells<'_>)
    requires lefts { AllFree table.now lefts.old }
    requires rights { AllFree table.now rights.old }
    ensures lefts { ZerosLaid table.now lefts.old.ignored lefts.new }
    ensures rights { ZerosLaid table.now rights.old.ignored rights.new }
{
    for (index, code) in table.iter().enumerate() {
        if *code == 0 {
            lefts.lay(index, 0);
            rights.lay(index, 0);
        }
    }
}

// Lays 1 at the left cell of each code 1 at which the right part must be 0; there is no pair where the left part must be 0 there too.
fn lay_left_ones(table: &[u8], lefts: &mut Cells<'_>, rights: &Cells<'_>) -> Result<(), NoPair>
    requires lefts { ZerosLaid table.now lefts.old.ignored lefts.old }
    requires rights { ZerosLaid table.now rights.now.ignored rights.now }
    ensures pair { IsErr result ↔ IsTrue (lacks_pair table.now rights.now.ignored lefts.old.ignored) }
    ensures laid { OnOk result (LeftLaid table.now rights.now.ignored lefts.old.ignored lefts.new) }
{
    for (index, code) in table.iter().enumerate() {
        if *code == 1 && rights.code(index) == 0 {
            if lefts.code(index) == 0 {
                return Err(NoPair);
            }
            lefts.lay(index, 1);
        }
    }
    Ok(())
}

// Lays 1 at the right cell of each code 1 at which the left part need not be 1.
fn lay_right_ones(table: &[u8], lefts: &Cells<'_>, rights: &mut Cells<'_>)
    requires lefts { LeftLaid table.now rights.old.ignored lefts.now.ignored lefts.now }
    requires rights { ZerosLaid table.now rights.old.ignored rights.old }
    ensures { RightLaid table.now rights.old.ignored lefts.now.ignored rights.new }
{
    for (index, code) in table.iter().enumerate() {
        if *code == 1 && lefts.code(index) != 1 {
            rights.lay(index, 1);
        }
    }
}
