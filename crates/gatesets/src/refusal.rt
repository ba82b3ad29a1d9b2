ghost use Rattle.std.specs.Prelude.{◌≡◌};
ghost use Rattle.gatesets.specs.Refusals.{split_number, split_spot};
ghost use Rattle.gatesets.specs.declared.refusal.SplitRefusal.TheVariants.{NoPair};

use tables::Refusal;

// Why a split is refused.
#[derive(Clone, Copy, PartialEq, Eq, Debug)]
pub enum SplitRefusal {
    // The number of variables is not from 1 to 10.
    Variables,
    // One of the five rows is too short for so many variables.
    TooShort,
    // The code at this index is above 2.
    Code { index: usize },
    // The set has no gate of that number.
    Gate,
    // The groups are not lawful: empty, overlapping or outside the variables.
    Groups,
    // The table admits no pair of functions joined by that gate.
    NoPair,
}

impl Refusal for SplitRefusal {
    ghost numbered = { split_number };

    ghost spotted = { split_spot };

    fn number(&self) -> u8 {
        match self {
            SplitRefusal::Variables => 1,
            SplitRefusal::TooShort => 2,
            SplitRefusal::Code { .. } => 5,
            SplitRefusal::Gate => 8,
            SplitRefusal::Groups => 9,
            SplitRefusal::NoPair => 20,
        }
    }

    fn spot(&self) -> usize {
        match self {
            SplitRefusal::Code { index } => *index,
            _ => 0,
        }
    }
}

// No pair of functions joined by the gate is admitted.
#[derive(Clone, Copy, PartialEq, Eq, Debug)]
pub struct NoPair;

impl From<NoPair> for SplitRefusal {
    ghost from_gives = { λ _ r. r ≡ NoPair };

    fn from(_none: NoPair) -> Self {
        Self::NoPair
    }
}
