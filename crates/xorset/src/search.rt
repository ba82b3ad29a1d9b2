ghost use Rattle.std.specs.Prelude.{◌≡◌, ◌*◌, ◌^◌, length};

use super::frame::{Frame, Side, Visit};
use super::submasks::Submasks;
use gatesets::NoPair;
use tables::Stack;

// The number of a cell that has no link.
const FREE: u16 = 2;

// The number of a cell that waits for its value.
const WAITING: u16 = 3;

// A search for values of the cells that meet the links of a table: a number for each cell, and a stack of the cells to visit.
#[derive(Drop)]
pub(crate) struct Search<'a> {
    table: &'a [u8],
    frame: Frame,
    values: &'a mut [u16],
    stack: Stack<'a, u16>,
    ghost table_long: { length table.now ≡ 2 ^ frame.variables },
    ghost values_long: { length values.now ≡ 2 * 2 ^ frame.variables },
    ghost stack_long: { length stack.cells.now ≡ 2 * 2 ^ frame.variables },
}

impl<'a> Search<'a> {
    ghost use Rattle.std.specs.Prelude.{◌+◌, ◌<◌, ◌≤◌, [], MatchResult, slice_index_or};
    ghost use Rattle.tables.specs.Stacks.{held};
    ghost use Rattle.xorset.specs.Search.{FollowsLink, IsMarked, HasNoValues, HasRoom, HasValues, HasVisit, IsBetween, IsGoing, IsOpen, IsTouched, Kept, LinkConflicts, WentOn, part_codes};

    // A search that begins: the cells that have a link wait, and no cell is to visit.
    pub(crate) fn new(
        table: &'a [u8],
        frame: Frame,
        values: &'a mut [u16],
        cells: &'a mut [u16],
    ) -> Self
        requires table { length table.now ≡ 2 ^ frame.variables }
        requires work { (length values.old ≡ 2 * 2 ^ frame.variables) × (length cells.old ≡ 2 * 2 ^ frame.variables) }
        ensures kept { (result.table.now ≡ table.now) × (result.frame ≡ frame) }
        ensures begun { IsBetween result 0 }
    {
        Self::mark_links(table, frame, values);
        Search {
            table,
            frame,
            values,
            stack: Stack::new(cells),
        }
    }

    // Marks the cells that have a link as waiting, and all others as free.
    fn mark_links(table: &[u8], frame: Frame, values: &mut [u16])
        requires table { length table.now ≡ 2 ^ frame.variables }
        requires values { length values.old ≡ 2 * 2 ^ frame.variables }
        ensures { IsMarked frame table.now (2 ^ frame.variables) values.new }
    {
        values.fill(FREE);
        for (i, code) in table.iter().enumerate() {
            if *code < 2 {
                values[frame.cell_of(Side::Left, i)] = WAITING;
                values[frame.cell_of(Side::Right, i)] = WAITING;
            }
        }
    }

    // Finds values of the cells that meet the links, the lowest cell of each class 0.
    pub(crate) fn find_values(&mut self) -> Result<(), NoPair>
        requires { IsBetween self.old 0 }
        ensures kept { Kept self.old self.new }
        ensures found { MatchResult result (λ _. HasValues self.new) (λ _. HasNoValues self.old) }
    {
        for root in 0..self.frame.points {
            self.visit_class(root)?;
        }
        Ok(())
    }

    // Gives a left cell that waits the value 0, and all cells of its class theirs.
    fn visit_class(&mut self, root: usize) -> Result<(), NoPair>
        requires root { root < 2 ^ self.old.frame.variables }
        requires between { IsBetween self.old root }
        ensures kept { Kept self.old self.new }
        ensures passed { MatchResult result (λ _. IsBetween self.new (root + 1)) (λ _. HasNoValues self.old) }
    {
        if self.values[root] != WAITING {
            return Ok(());
        }
        self.values[root] = 0;
        self.stack.push(root as u16).unwrap();
        self.visit_all()
    }

    // Visits the cells of the stack, and those found on the way, until none is left.
    fn visit_all(&mut self) -> Result<(), NoPair>
        requires { IsGoing self.old (IsOpen self.old) }
        ensures kept { Kept self.old self.new }
        ensures came { MatchResult result (λ _. WentOn self.old self.new × (held self.new.stack ≡ [])) (λ _. HasNoValues self.old) }
    {
        while let Ok(cell) = self.stack.pop() {
            let visit = self.frame.visit_of(cell as usize);
            self.visit_links(visit)?;
        }
        Ok(())
    }

    // Follows all links of a cell, from the assignment with all digits of the group down to the base.
    fn visit_links(&mut self, visit: Visit) -> Result<(), NoPair>
        requires visits { HasVisit self.old.frame visit }
        requires valued { slice_index_or self.old.values.now visit.cell 2 < 2 }
        requires going { IsGoing self.old (IsTouched self.old visit.cell) }
        ensures kept { Kept self.old self.new }
        ensures came { MatchResult result (λ _. WentOn self.old self.new) (λ _. HasNoValues self.old) }
    {
        let value = self.values[visit.cell];
        for subset in Submasks::of(visit.group) {
            self.follow_link(visit.base + subset, value, visit.other)?;
        }
        Ok(())
    }

    // Follows the link of an assignment from a cell of this value to the cell on the other side: one that waits gets its value and is to visit.
    fn follow_link(&mut self, i: usize, value: u16, other: Side) -> Result<(), NoPair>
        requires i { i < 2 ^ self.old.frame.variables }
        requires value { value < 2 }
        requires room { HasRoom self.old }
        ensures kept { Kept self.old self.new }
        ensures followed { MatchResult result (λ _. FollowsLink self.old i value other self.new) (λ _. LinkConflicts self.old i value other) }
    {
        let code = self.table[i];
        if code >= 2 {
            return Ok(());
        }
        let wanted = value ^ code as u16;
        let cell = self.frame.cell_of(other, i);
        match self.values[cell] {
            WAITING => {
                self.values[cell] = wanted;
                self.stack.push(cell as u16).unwrap();
                Ok(())
            }
            found if found == wanted => Ok(()),
            _ => Err(NoPair),
        }
    }

    // Writes the codes of the cells of a side into the row of its part.
    pub(crate) fn write_part(&self, side: Side, row: &mut [u8])
        requires row { length row.old ≡ 2 ^ self.now.frame.variables }
        requires values { HasValues self.now }
        ensures { row.new ≡ part_codes self.now side }
    {
        for (i, code) in row.iter_mut().enumerate() {
            *code = self.values[self.frame.cell_of(side, i)] as u8;
        }
    }
}
