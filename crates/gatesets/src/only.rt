ghost use Rattle.std.specs.Prelude.{◌≡◌};
ghost use Rattle.gatesets.specs.Rules.{only_gate};

// The answers of a gate number in a set whose only gate, number 0, has these answers.
pub fn only_gate(answers: [bool; 4], gate: u8) -> [bool; 4]
    ensures { result ≡ only_gate answers gate }
{
    match gate {
        0 => answers,
        _ => [false; 4],
    }
}
