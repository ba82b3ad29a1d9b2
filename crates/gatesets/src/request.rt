ghost use Rattle.std.specs.Prelude.{◌≡◌, ◌≤◌};
ghost use Rattle.tables.specs.Groups.{lawful_groups};

// What a split is asked for: the number of the table's variables, a gate number, and two groups of variables.
#[derive(Clone, Copy, PartialEq, Eq, Debug)]
pub struct Request {
    pub variables: u8,
    pub gate: u8,
    pub left: u16,
    pub right: u16,
}

impl Request {
    // Whether the groups are non-empty, disjoint and inside the table's variables.
    pub(crate) fn has_lawful_groups(&self) -> bool
        requires { self.now.variables ≤ 10 }
        ensures { result ≡ lawful_groups self.now.variables self.now.left self.now.right }
    {
        let points: u16 = 1 << self.variables;
        let (left, right) = (self.left, self.right);
        0 < left && 0 < right && left & right == 0 && left < points && right < points
    }
}
