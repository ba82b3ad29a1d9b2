// The worked questions about splits, checked by one statement about the rules.
ghost use Rattle.std.specs.Prelude.{◌≡◌, length};
ghost use Rattle.worked.specs.WorkedSplits.{Ruled, WorkedSplits, split_questions};

// How many worked questions about splits are proved; the contract is their whole table.
pub fn worked_splits() -> usize
    ensures count { result ≡ length split_questions }
    ensures table { WorkedSplits }
    ensures rules { Ruled }
{
    26
}
