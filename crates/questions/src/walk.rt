ghost use Rattle.std.specs.Prelude.{◌≡◌, ◌-◌, length};
ghost use Rattle.std.specs.Iterator.{at_most};

use super::found::Found;
use super::listing::Stop;

// The entries of a file one after the other, up to its end or to the first that is refused.
#[derive(Drop)]
pub struct Walk<'a> {
    file: &'a [u8],
    // the byte number of the next entry
    at: usize,
}

impl<'a> Walk<'a> {
    pub fn new(file: &'a [u8]) -> Walk<'a>
        ensures { (result.file.now ≡ file.now) × (result.at ≡ 0) }
    {
        Walk { file, at: 0 }
    }
}

impl<'a> Iterator for Walk<'a> {
    type Item = Result<Found<'a>, Stop>;

    ghost use Rattle.questions.specs.Walks.{WalksTo};

    ghost next_gives = { λ s r t. (t.file.now ≡ s.file.now) × WalksTo s.file.now s.at r t.at };

    ghost remaining = { λ s. at_most (length s.file.now - s.at) };

    fn next(&mut self) -> Option<Result<Found<'a>, Stop>> {
        let at = self.at;
        if at >= self.file.len() {
            return None;
        }
        match Found::find(self.file, at, 1024) {
            Ok(found) => {
                self.at = found.entry.next;
                Some(Ok(found))
            }
            Err(fault) => {
                self.at = self.file.len();
                Some(Err(Stop { at, fault }))
            }
        }
    }
}
