ghost use Rattle.std.specs.Prelude.{◌≡◌, ◌^◌};
ghost use Rattle.tables.specs.Checks.{answered};
ghost use Rattle.gatesets.specs.Splits.{early, rows};

use super::refusal::SplitRefusal;
use super::request::Request;
use tables::{points, wrong_code};

// Makes every check of a split but the last, in their order, for a set of so many gates, and answers how many assignments the table has.
pub fn check_split(
    count: u8,
    ask: Request,
    table: &[u8],
    left: &[u8],
    right: &[u8],
    first: &[u16],
    second: &[u16],
) -> Result<usize, SplitRefusal>
    ensures { result ≡ answered (early count ask (rows table.now left.now right.now first.now second.now)) (2 ^ ask.variables) }
{
    let points = points(ask.variables).ok_or(SplitRefusal::Variables)?;
    let codes = table.len().min(left.len()).min(right.len());
    let numbers = first.len().min(second.len());
    if codes < points || numbers < 2 * points {
        return Err(SplitRefusal::TooShort);
    }
    if let Some(index) = wrong_code(&table[0..points]) {
        return Err(SplitRefusal::Code { index });
    }
    if ask.gate >= count {
        return Err(SplitRefusal::Gate);
    }
    if !ask.has_lawful_groups() {
        return Err(SplitRefusal::Groups);
    }
    Ok(points)
}
