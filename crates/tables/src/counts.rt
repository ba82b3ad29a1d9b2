ghost use Rattle.std.specs.Prelude.{◌≡◌};
ghost use Rattle.tables.specs.Tables.{counted};

// How often each code stands in a row.
#[derive(Clone, Copy, PartialEq, Eq, Debug)]
pub struct Counts {
    pub zeros: usize,
    pub ones: usize,
    pub frees: usize,
}

// Counts the codes 0, 1 and 2 of a row; what is none of them is passed over.
pub fn count_codes(row: &[u8]) -> Counts
    ensures { result ≡ counted row.now }
{
    let mut zeros = 0;
    let mut ones = 0;
    let mut frees = 0;
    for code in row {
        match *code {
            0 => zeros += 1,
            1 => ones += 1,
            2 => frees += 1,
            _ => {}
        }
    }
    Counts { zeros, ones, frees }
}
