ghost use Rattle.gatesets.specs.Rules.{only_gate};
ghost use Rattle.orset.specs.Or.{OrGives, or_gate};
ghost use Rattle.std.proofs.Common.{rules};

use super::parts::write_parts;
use gatesets::{GateSet, LentRows, Request, SplitRefusal, only_gate};

// How many gates the set has.
const COUNT: u8 = 1;

// The set whose only gate, number 0, is OR.
#[derive(Clone, Copy, Debug)]
pub struct Or;

impl GateSet for Or {
    ghost counted = { λ _. 1 };

    ghost answering = { λ _. only_gate or_gate };

    ghost gives = { λ _. OrGives };

    ghost sixteen = { Prim.search rules };

    ghost four = { Prim.search rules };

    ghost past = { Prim.search rules };

    fn count(&self) -> u8 {
        COUNT
    }

    fn answers(&self, gate: u8) -> [bool; 4] {
        only_gate([false, true, true, true], gate)
    }

    #[tactic(auto, using(crate::proofs::OrEnds::ends_none))]
    fn split(&self, ask: Request, rows: &mut LentRows<'_>) -> Result<(), SplitRefusal> {
        let points = rows.check(COUNT, ask)?;
        // borrowed as the other rows are, though it is only read
        let table = &mut rows.table[0..points];
        write_parts(
            ask,
            table,
            &mut rows.left[0..points],
            &mut rows.right[0..points],
            &mut rows.first[0..points],
            &mut rows.second[0..points],
        )?;
        Ok(())
    }
}
