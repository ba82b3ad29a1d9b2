// The gates by which an entry can be split, as one set of gates.
use gatesets::{GateSet, LeftInverted, Opposite, PairOf};
use orset::Or;
use tables::gate_code;
use xorset::Xor;

// The gates that a command can name, each with its code.
const NAMES: [(&str, u8); 6] = [
    ("or", 14),
    ("and", 8),
    ("xor", 6),
    ("left-inverted-or", 11),
    ("left-inverted-and", 2),
    ("left-inverted-xor", 9),
];

type Upright = PairOf<Or, PairOf<Opposite<Or>, Xor>>;

pub type Gates = PairOf<Upright, LeftInverted<Upright>>;

// The set: each gate as it is, then each with its first input complemented.
pub fn all_gates() -> Gates {
    let upright = PairOf(Or, PairOf(Opposite(Or), Xor));
    PairOf(upright, LeftInverted(upright))
}

// The number in the set of the gate with a name.
pub fn gate_number(name: &str) -> Option<u8> {
    let (_, code) = NAMES.iter().find(|(each, _)| *each == name)?;
    let gates = all_gates();
    (0..gates.count()).find(|number| gate_code(gates.answers(*number)) == *code)
}
