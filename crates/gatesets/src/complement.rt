ghost use Rattle.std.specs.Prelude.{◌≡◌, map};
ghost use Rattle.std.specs.Option.{unwrap_or};
ghost use Rattle.tables.specs.Gates.{complement};
ghost use Rattle.tables.specs.Tables.{sized};
ghost use Rattle.gatesets.specs.Derived.{complemented_to};

use tables::{complement_code, points};

// Complements every code of a row.
pub fn complement_row(row: &mut [u8])
    ensures { row.new ≡ map complement row.old }
{
    for code in row.iter_mut() {
        *code = complement_code(*code);
    }
}

// Complements the table of so many variables at the front of a row: no code where no table has so many variables.
pub fn complement_table(row: &mut [u8], variables: u8)
    ensures { row.new ≡ complemented_to (unwrap_or (sized variables) 0) row.old }
{
    let points = points(variables).unwrap_or(0).min(row.len());
    complement_row(&mut row[0..points]);
}
