ghost use Rattle.gatesets.specs.Derived.{LeftInvertedGives, inverted_left};
ghost use Rattle.std.proofs.Common.{rules};

use super::complement::complement_table;
use super::gateset::GateSet;
use super::refusal::SplitRefusal;
use super::request::Request;
use super::rows::LentRows;

// The left-inverted set: each gate answers what the gate below answers where its first input is complemented.
#[derive(Clone, Copy)]
pub struct LeftInverted<S>(pub S);

impl<S: GateSet> GateSet for LeftInverted<S> {
    ghost counted = { λ s. S.GateSet.counted s.0 };

    ghost answering = { λ s k. inverted_left (S.GateSet.answering s.0 k) };

    ghost gives = { λ s. LeftInvertedGives (S.GateSet.gives s.0) };

    ghost sixteen = { Prim.search rules };

    ghost four = { Prim.search rules };

    ghost past = { Prim.search rules };

    fn count(&self) -> u8 {
        self.0.count()
    }

    fn answers(&self, gate: u8) -> [bool; 4] {
        let [neither, right, left, both] = self.0.answers(gate);
        [left, both, neither, right]
    }

    // The set below splits the table; its left part is complemented.
    fn split(&self, ask: Request, rows: &mut LentRows<'_>) -> Result<(), SplitRefusal> {
        self.0.split(ask, rows)?;
        complement_table(rows.left, ask.variables);
        Ok(())
    }
}
