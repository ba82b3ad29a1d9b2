ghost use Rattle.gatesets.specs.Derived.{PairGives, pair_answering, pair_count};
ghost use Rattle.std.proofs.Common.{rules};

use super::gateset::GateSet;
use super::refusal::SplitRefusal;
use super::request::Request;
use super::rows::LentRows;

// A pair of sets: the gates of the first, then those of the second, sixteen at most.
#[derive(Clone, Copy)]
pub struct PairOf<F, S>(pub F, pub S);

impl<F: GateSet, S: GateSet> GateSet for PairOf<F, S> {
    ghost counted = { λ s. pair_count (F.GateSet.counted s.0) (S.GateSet.counted s.1) };

    ghost answering = { λ s. pair_answering (F.GateSet.counted s.0) (F.GateSet.answering s.0) (S.GateSet.answering s.1) };

    ghost gives = { λ s. PairGives (F.GateSet.counted s.0) (F.GateSet.gives s.0) (S.GateSet.gives s.1) };

    ghost sixteen = { Prim.search rules };

    ghost four = { Prim.search rules };

    ghost past = { Prim.search rules };

    fn count(&self) -> u8 {
        (self.0.count() + self.1.count()).min(16)
    }

    fn answers(&self, gate: u8) -> [bool; 4] {
        let count = self.0.count();
        if gate < count {
            self.0.answers(gate)
        } else if gate < 16 {
            self.1.answers(gate - count)
        } else {
            [false; 4]
        }
    }

    // The set to which the gate belongs splits the table; a gate number that is none of the pair's is none of the first set's, which refuses it.
    fn split(&self, ask: Request, rows: &mut LentRows<'_>) -> Result<(), SplitRefusal> {
        let count = self.0.count();
        if ask.gate < count || ask.gate >= 16 {
            self.0.split(ask, rows)
        } else {
            let ask = Request {
                gate: ask.gate - count,
                ..ask
            };
            self.1.split(ask, rows)
        }
    }
}
