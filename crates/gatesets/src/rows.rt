ghost use Rattle.std.specs.Prelude.{◌≡◌, ◌^◌};
ghost use Rattle.tables.specs.Checks.{answered};

use super::check::check_split;
use super::refusal::SplitRefusal;
use super::request::Request;

// The rows lent to a split: the table, a row for each part, and two work rows.
#[derive(Drop)]
pub struct LentRows<'a> {
    pub table: &'a mut [u8],
    pub left: &'a mut [u8],
    pub right: &'a mut [u8],
    pub first: &'a mut [u16],
    pub second: &'a mut [u16],
}

impl LentRows<'_> {
    ghost use Rattle.gatesets.specs.Lent.{rows_of};
    ghost use Rattle.gatesets.specs.Splits.{early};

    // Makes the checks of `check_split` on these rows.
    pub fn check(&self, count: u8, ask: Request) -> Result<usize, SplitRefusal>
        ensures { result ≡ answered (early count ask (rows_of self.now)) (2 ^ ask.variables) }
    {
        check_split(
            count,
            ask,
            self.table,
            self.left,
            self.right,
            self.first,
            self.second,
        )
    }
}
