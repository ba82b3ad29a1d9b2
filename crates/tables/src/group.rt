ghost use Rattle.std.specs.Prelude.{◌≡◌};
ghost use Rattle.tables.specs.Groups.{clear};

// A number with the digits of a group cleared.
pub fn clear_group(group: u16, index: usize) -> usize
    ensures { result ≡ clear group index }
{
    index - (index & group as usize)
}
