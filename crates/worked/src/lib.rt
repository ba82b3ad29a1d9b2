// The worked questions: one table, checked by one statement about the definitions that every contract cites.
#![tactic(auto)]

ghost use Rattle.std.specs.Prelude.{◌≡◌, length};
ghost use Rattle.worked.specs.Worked.{questions, Worked};

// How many worked questions are proved; the contract is the whole table.
pub fn worked_questions() -> usize
    ensures count { result ≡ length questions }
    ensures table { Worked }
{
    22
}

mod splits;

pub use splits::worked_splits;

#[cfg(test)]
mod tests;
