ghost use Rattle.std.specs.Prelude.{◌≡◌, ℕ, ◌≤◌, Bool, List, length};
ghost use Rattle.tables.specs.Gates.{no_answers};
ghost use Rattle.gatesets.specs.Lent.{SameRows, rows_of};
ghost use Rattle.gatesets.specs.Splits.{Split};
ghost use Rattle.gatesets.specs.declared.request.Request.{Request};

use super::refusal::SplitRefusal;
use super::request::Request;
use super::rows::LentRows;

// A set of gates, numbered from 0: how many it has, the four answers of each, and which parts it may give.
pub trait GateSet {
    // How many gates the set has.
    ghost counted: { Self → ℕ };

    // The four answers of each gate number.
    ghost answering: { Self → ℕ → List Bool };

    // Which parts the set may give: for a request and a table, a left and a right part.
    ghost gives: { Self → Request → List ℕ → List ℕ → List ℕ → Type 0 };

    fn count(&self) -> u8
        ensures { result ≡ counted self.now };

    // The answers of a gate for the inputs (0,0), (0,1), (1,0), (1,1); four answers 0 where the set has no such gate.
    fn answers(&self, gate: u8) -> [bool; 4]
        ensures { result ≡ answering self.now gate };

    // Splits the table at the front of its row into two parts that the gate joins. The table comes back as it was; the two work rows are open.
    fn split(&self, ask: Request, rows: &mut LentRows<'_>) -> Result<(), SplitRefusal>
        ensures same_rows { SameRows rows.old rows.new }
        ensures work_rows { (length rows.new.first.now ≡ length rows.old.first.now) × (length rows.new.second.now ≡ length rows.old.second.now) }
        ensures table_kept { rows.new.table.now ≡ rows.old.table.now }
        ensures outcome { Split (counted self.now) (answering self.now ask.gate) (gives self.now) ask (rows_of rows.old) rows.new.left.now rows.new.right.now result };

    ghost sixteen: { (s : Self) → (1 ≤ counted s) × (counted s ≤ 16) };

    ghost four: { (s : Self) (k : ℕ) → length (answering s k) ≡ 4 };

    ghost past: { (s : Self) (k : ℕ) → counted s ≤ k → answering s k ≡ no_answers };
}
