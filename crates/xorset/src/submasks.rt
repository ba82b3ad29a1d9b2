ghost use Rattle.std.specs.Prelude.{◌≡◌, ◌+◌};
ghost use Rattle.std.specs.Iterator.{at_most};
ghost use Rattle.xorset.specs.Submasks.{StepsDown};

// The subsets of a group, from the group itself down to 0: numbers whose digits are all in it. Those below `bound` are still to come.
#[derive(Drop)]
pub(crate) struct Submasks {
    group: usize,
    bound: usize,
}

impl Submasks {
    // All subsets of a group of 16 variables at most.
    pub(crate) fn of(group: u16) -> Self
        ensures group { result.group ≡ group }
        ensures bound { result.bound ≡ group + 1 }
    {
        let group = group as usize;
        Submasks {
            group,
            bound: group + 1,
        }
    }
}

impl Iterator for Submasks {
    type Item = usize;

    ghost next_gives = { StepsDown };

    ghost remaining = { λ s. at_most s.bound };

    fn next(&mut self) -> Option<usize> {
        let below = self.bound.checked_sub(1)?;
        self.bound = below & self.group;
        Some(self.bound)
    }
}
