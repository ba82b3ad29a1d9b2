ghost use Rattle.std.specs.Prelude.{◌≡◌, ◌*◌, ◌^◌, ◌<◌, ◌≤◌, length, MatchResult};
ghost use Rattle.gatesets.specs.Rules.{no_pair, only_gate, two_parts};
ghost use Rattle.xorset.specs.Xor.{XorGives, xor_gate, xor_rule};
ghost use Rattle.std.proofs.Common.{rules};

use super::frame::{Frame, Side};
use super::search::Search;
use gatesets::{GateSet, LentRows, NoPair, Request, SplitRefusal, only_gate};

// How many gates the set has.
const COUNT: u8 = 1;

// The set whose only gate, number 0, is XOR.
#[derive(Clone, Copy, Debug)]
pub struct Xor;

impl GateSet for Xor {
    ghost counted = { λ _. 1 };

    ghost answering = { λ _. only_gate xor_gate };

    ghost gives = { λ _. XorGives };

    ghost sixteen = { Prim.search rules };

    ghost four = { Prim.search rules };

    ghost past = { Prim.search rules };

    fn count(&self) -> u8 {
        COUNT
    }

    fn answers(&self, gate: u8) -> [bool; 4] {
        only_gate([false, true, true, false], gate)
    }

    // The first work row takes the values of the cells, the second the cells to visit.
    #[tactic(auto, using(crate::proofs::XorEnds::codes_fit, crate::proofs::XorEnds::numbers_fit, crate::proofs::XorEnds::ends_none))]
    fn split(&self, ask: Request, rows: &mut LentRows<'_>) -> Result<(), SplitRefusal> {
        let points = rows.check(COUNT, ask)?;
        // borrowed as the other rows are, though it is only read
        let table = &mut rows.table[0..points];
        split_table(
            ask,
            table,
            &mut rows.left[0..points],
            &mut rows.right[0..points],
            &mut rows.first[0..2 * points],
            &mut rows.second[0..2 * points],
        )?;
        Ok(())
    }
}

// Writes the parts of a table into rows of its size, where it has a pair.
fn split_table(
    ask: Request,
    table: &[u8],
    left: &mut [u8],
    right: &mut [u8],
    values: &mut [u16],
    cells: &mut [u16],
) -> Result<(), NoPair>
    requires variables { ask.variables ≤ 10 }
    requires groups { (ask.left < 2 ^ ask.variables) × (ask.right < 2 ^ ask.variables) }
    requires rows { (length table.now ≡ 2 ^ ask.variables) × ((length left.old ≡ 2 ^ ask.variables) × (length right.old ≡ 2 ^ ask.variables)) }
    requires work { (length values.old ≡ 2 * 2 ^ ask.variables) × (length cells.old ≡ 2 * 2 ^ ask.variables) }
    ensures { MatchResult result (λ _. xor_rule ask table.now ≡ two_parts left.new right.new)
        (λ _. (xor_rule ask table.now ≡ no_pair) × (left.new ≡ left.old) × (right.new ≡ right.old)) }
{
    let frame = Frame {
        variables: ask.variables,
        points: table.len(),
        left: ask.left,
        right: ask.right,
    };
    let mut search = Search::new(table, frame, values, cells);
    search.find_values()?;
    search.write_part(Side::Left, left);
    search.write_part(Side::Right, right);
    Ok(())
}
