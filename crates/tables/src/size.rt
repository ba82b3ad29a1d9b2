ghost use Rattle.std.specs.Prelude.{◌≡◌, take};
ghost use Rattle.std.specs.Option.{unwrap_or};
ghost use Rattle.tables.specs.Tables.{sized};

// How many assignments a table of so many variables has; none where that number is not from 1 to 10.
pub fn points(variables: u8) -> Option<usize>
    ensures { result ≡ sized variables }
{
    match variables {
        1..=10 => Some(1 << variables),
        _ => None,
    }
}

// The table of so many variables at the front of a row: fewer codes where the row is shorter, none where no table has so many variables.
pub fn table_in(row: &[u8], variables: u8) -> &[u8]
    ensures { result.now ≡ take (unwrap_or (sized variables) 0) row.now }
{
    let points = points(variables).unwrap_or(0);
    &row[0..points.min(row.len())]
}
