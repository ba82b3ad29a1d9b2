ghost use Rattle.std.specs.Prelude.{◌≡◌};
ghost use Rattle.tables.specs.Gates.{complement, gate_code};

// The code of a gate: 2 ^ (2 a + b) for each input pair (a, b) that it answers 1, added up.
pub fn gate_code(gate: [bool; 4]) -> u8
    ensures { result ≡ gate_code gate }
{
    let [neither, right, left, both] = gate;
    neither as u8 + 2 * (right as u8) + 4 * (left as u8) + 8 * (both as u8)
}

// The complement of a code: 0 and 1 change, free remains, and so does what is no code.
pub fn complement_code(code: u8) -> u8
    ensures { result ≡ complement code }
{
    match code {
        0 => 1,
        1 => 0,
        other => other,
    }
}
