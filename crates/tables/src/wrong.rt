ghost use Rattle.std.specs.Prelude.{◌≡◌, position, nat_lt};

// The lowest index of what is no code.
pub fn wrong_code(row: &[u8]) -> Option<usize>
    ensures { result ≡ position (λ code. nat_lt 2 code) row.now }
{
    row.iter().position(|code| *code > 2)
}
