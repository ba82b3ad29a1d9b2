ghost use Rattle.std.specs.Prelude.{◌≡◌, ◌+◌, ◌<◌, min, [], ◌∷◌, ◌++◌, length, MatchResult, slice_set};
ghost use Rattle.tables.specs.Stacks.{held, stack_number, stack_spot};
ghost use Rattle.tables.specs.declared.stack.StackRefusal.TheVariants.{Full, Empty};

use super::refusal::Refusal;

// Why a stack refuses.
#[derive(Clone, Copy, PartialEq, Eq, Debug)]
pub enum StackRefusal {
    // Every cell holds an element.
    Full,
    // No element is held.
    Empty,
}

impl Refusal for StackRefusal {
    ghost numbered = { stack_number };

    ghost spotted = { stack_spot };

    fn number(&self) -> u8 {
        match self {
            StackRefusal::Full => 23,
            StackRefusal::Empty => 22,
        }
    }

    fn spot(&self) -> usize {
        match self {
            StackRefusal::Full | StackRefusal::Empty => 0,
        }
    }
}

// A stack over lent cells: the first cells hold its elements, the latest last.
#[derive(Drop)]
pub struct Stack<'a, T> {
    pub cells: &'a mut [T],
    pub len: usize,
}

impl<'a, T: Copy> Stack<'a, T> {
    // An empty stack over the lent cells.
    pub fn new(cells: &'a mut [T]) -> Self
        ensures empty { (held result ≡ []) × (result.len ≡ 0) }
        ensures lent { result.cells.now ≡ cells.old }
    {
        Stack { cells, len: 0 }
    }

    // Adds an element as the latest, where a cell is left for it.
    pub fn push(&mut self, element: T) -> Result<(), StackRefusal>
        ensures room { length self.new.cells.now ≡ length self.old.cells.now }
        ensures pushed { MatchResult result
            (λ _. (held self.new ≡ held self.old ++ (element ∷ []))
            × (self.old.len < length self.old.cells.now)
            × (self.new.len ≡ self.old.len + 1)
            × (self.new.cells.now ≡ slice_set self.old.cells.now self.old.len element))
            (λ refusal. (refusal ≡ Full)
            × (self.new ≡ self.old)
            × (length (held self.old) ≡ length self.old.cells.now)) }
    {
        if self.len >= self.cells.len() {
            return Err(StackRefusal::Full);
        }
        self.cells[self.len] = element;
        self.len += 1;
        Ok(())
    }

    // Takes the latest element.
    pub fn pop(&mut self) -> Result<T, StackRefusal>
        ensures room { length self.new.cells.now ≡ length self.old.cells.now }
        ensures popped { MatchResult result
            (λ element. (held self.old ≡ held self.new ++ (element ∷ []))
            × (length (held self.old) ≡ self.new.len + 1)
            × (self.new.cells.now ≡ self.old.cells.now))
            (λ refusal. (refusal ≡ Empty)
            × (self.new ≡ self.old)
            × (held self.old ≡ [])) }
    {
        let count = self.len();
        if count == 0 {
            return Err(StackRefusal::Empty);
        }
        self.len = count - 1;
        Ok(self.cells[self.len])
    }

    // How many elements are held.
    pub fn len(&self) -> usize
        ensures count { result ≡ length (held self.now) }
        ensures least { result ≡ min self.now.len (length self.now.cells.now) }
    {
        self.len.min(self.cells.len())
    }
}
