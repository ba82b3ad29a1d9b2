ghost use Rattle.gatesets.specs.Derived.{OppositeGives, opposite_answering};
ghost use Rattle.std.proofs.Common.{rules};

use super::complement::complement_table;
use super::gateset::GateSet;
use super::refusal::SplitRefusal;
use super::request::Request;
use super::rows::LentRows;

// The opposite of a set: each gate answers the complement of what the gate below answers on complemented inputs.
#[derive(Clone, Copy)]
pub struct Opposite<S>(pub S);

impl<S: GateSet> GateSet for Opposite<S> {
    ghost counted = { λ s. S.GateSet.counted s.0 };

    ghost answering = { λ s. opposite_answering (S.GateSet.counted s.0) (S.GateSet.answering s.0) };

    ghost gives = { λ s. OppositeGives (S.GateSet.gives s.0) };

    ghost sixteen = { Prim.search rules };

    ghost four = { Prim.search rules };

    ghost past = { Prim.search rules };

    fn count(&self) -> u8 {
        self.0.count()
    }

    fn answers(&self, gate: u8) -> [bool; 4] {
        if gate < self.count() {
            let [neither, right, left, both] = self.0.answers(gate);
            [!both, !left, !right, !neither]
        } else {
            [false; 4]
        }
    }

    // The set below splits the complemented table; its parts are complemented.
    fn split(&self, ask: Request, rows: &mut LentRows<'_>) -> Result<(), SplitRefusal> {
        complement_table(rows.table, ask.variables);
        let done = self.0.split(ask, rows);
        complement_table(rows.table, ask.variables);
        done?;
        complement_table(rows.left, ask.variables);
        complement_table(rows.right, ask.variables);
        Ok(())
    }
}
