ghost use Rattle.std.specs.Prelude.{◌≡◌, ◌^◌, ◌<◌, ◌≤◌};

use tables::clear_group;

// The side of a cell.
#[derive(Clone, Copy)]
pub(crate) enum Side {
    Left,
    Right,
}

// A visit of a cell: its links are those of the assignments that are `base` without the digits of `group`, and lead to cells of the other side.
#[derive(Clone, Copy)]
pub(crate) struct Visit {
    pub cell: usize,
    pub base: usize,
    pub group: u16,
    pub other: Side,
}

// The number of variables and of assignments of a table, and two groups of its variables.
#[derive(Clone, Copy)]
pub(crate) struct Frame {
    pub variables: u8,
    pub points: usize,
    pub left: u16,
    pub right: u16,
    ghost at_most_ten: { variables ≤ 10 },
    ghost all_points: { points ≡ 2 ^ variables },
    ghost left_inside: { left < 2 ^ variables },
    ghost right_inside: { right < 2 ^ variables },
}

impl Frame {
    ghost use Rattle.xorset.specs.Search.{HasCell, HasVisit, cell_at};

    // The cell of an assignment on a side: left cells are numbered first.
    pub(crate) fn cell_of(self, side: Side, i: usize) -> usize
        requires { i < 2 ^ self.variables }
        ensures { result ≡ cell_at self side i }
    {
        match side {
            Side::Left => clear_group(self.right, i),
            Side::Right => self.points + clear_group(self.left, i),
        }
    }

    // How a cell is visited.
    pub(crate) fn visit_of(self, cell: usize) -> Visit
        requires { HasCell self cell }
        ensures visits { HasVisit self result }
        ensures cell { result.cell ≡ cell }
    {
        if cell < self.points {
            Visit {
                cell,
                base: cell,
                group: self.right,
                other: Side::Right,
            }
        } else {
            Visit {
                cell,
                base: cell - self.points,
                group: self.left,
                other: Side::Left,
            }
        }
    }
}
