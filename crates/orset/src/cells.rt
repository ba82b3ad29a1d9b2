ghost use Rattle.std.specs.Prelude.{◌≡◌, ℕ, ◌<◌, ◌≤◌, length, map, replicate, slice_index, slice_set};
ghost use Rattle.std.specs.List.{range_with_len};
ghost use Rattle.tables.specs.Groups.{clear};

use tables::clear_group;

// The code of a cell that may be 0 or 1.
const FREE: u16 = 2;

// The cells of a part: a code from 0 to 2 for each assignment that is cleared of the group that the part ignores.
#[derive(Drop)]
pub(crate) struct Cells<'a> {
    ignored: u16,
    codes: &'a mut [u16],
    ghost small: { (c : ℕ) → c < length codes.now → slice_index codes.now c ≤ 2 },
}

impl<'a> Cells<'a> {
    // The cells of a part that ignores this group, all free.
    pub(crate) fn free(ignored: u16, codes: &'a mut [u16]) -> Cells<'a>
        ensures group { result.ignored ≡ ignored }
        ensures codes { result.codes.now ≡ replicate (length codes.old) 2 }
    {
        codes.fill(FREE);
        Cells { ignored, codes }
    }

    // The code at the cell of an assignment.
    pub(crate) fn code(&self, index: usize) -> u16
        requires { index < length self.now.codes.now }
        ensures code { result ≡ slice_index self.now.codes.now (clear self.now.ignored index) }
        ensures small { result ≤ 2 }
    {
        self.codes[clear_group(self.ignored, index)]
    }

    // Lays a code at the cell of an assignment.
    pub(crate) fn lay(&mut self, index: usize, code: u16)
        requires inside { index < length self.old.codes.now }
        requires code { code ≤ 2 }
        ensures group { self.new.ignored ≡ self.old.ignored }
        ensures codes { self.new.codes.now ≡ slice_set self.old.codes.now (clear self.old.ignored index) code }
    {
        let cell = clear_group(self.ignored, index);
        self.codes[cell] = code;
    }

    // Gives every assignment the code of its cell in a part that ignores this group.
    pub(crate) fn write(&self, ignored: u16, part: &mut [u8])
        requires { length self.now.codes.now ≡ length part.old }
        ensures { part.new ≡ map (λ i. slice_index self.now.codes.now (clear ignored i)) (range_with_len 0 (length part.old)) }
    {
        for (index, code) in part.iter_mut().enumerate() {
            *code = self.codes[clear_group(ignored, index)] as u8;
        }
    }
}
