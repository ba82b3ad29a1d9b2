// A table as a grid: the lowest variables, up to three, go across, and the others down.
ghost use Rattle.std.specs.Prelude.{◌≤◌};

use std::fmt;

// A table of so many variables.
#[derive(Clone, Copy)]
pub struct Grid<'a> {
    pub variables: u8,
    pub codes: &'a [u8],
}

// The letter of a variable: a for number 0.
fn letter(variable: u8) -> char {
    char::from(b'a'.wrapping_add(variable))
}

// The letter of a code.
fn symbol(code: u8) -> char {
    match code {
        0 => '0',
        1 => '1',
        _ => '-',
    }
}

// Writes the letters of some variables, the highest first.
fn write_letters<W: fmt::Write>(f: &mut fmt::Formatter<W>, low: u8, high: u8) -> fmt::Result {
    for variable in (low..high).rev() {
        write!(f, "{}", letter(variable))?;
    }
    Ok(())
}

// Writes the values of so many variables in a number, the highest first.
fn write_values<W: fmt::Write>(
    f: &mut fmt::Formatter<W>,
    number: usize,
    variables: u8,
) -> fmt::Result {
    for variable in (0..variables).rev() {
        let value = number.checked_shr(variable as u32).unwrap_or(0) & 1;
        write!(f, "{value}")?;
    }
    Ok(())
}

impl Grid<'_> {
    // How many variables go across.
    fn across(&self) -> u8
        ensures few { result ≤ 3 }
        ensures inside { result ≤ self.now.variables }
    {
        self.variables.min(3)
    }

    // The line above the grid: the letters down, the letters across, and the values of those in each column.
    fn write_heading<W: fmt::Write>(&self, f: &mut fmt::Formatter<W>) -> fmt::Result {
        let across = self.across();
        write_letters(f, across, self.variables)?;
        write!(f, "  ")?;
        write_letters(f, 0, across)?;
        write!(f, " ")?;
        for column in 0..1 << across {
            write!(f, " ")?;
            write_values(f, column, across)?;
        }
        Ok(())
    }

    // One line of the grid: the values of the variables down, and a code for each column.
    fn write_line<W: fmt::Write>(
        &self,
        f: &mut fmt::Formatter<W>,
        row: usize,
        codes: &[u8],
    ) -> fmt::Result {
        let across = self.across();
        let width = across as usize;
        write_values(f, row, self.variables - across)?;
        write!(f, "   {:width$}", "")?;
        for code in codes {
            write!(f, "{:width$}{}", "", symbol(*code))?;
        }
        Ok(())
    }
}

impl fmt::Display for Grid<'_> {
    fn fmt<W: fmt::Write>(&self, f: &mut fmt::Formatter<W>) -> fmt::Result {
        self.write_heading(f)?;
        for (row, codes) in self.codes.chunks(1 << self.across()).enumerate() {
            writeln!(f)?;
            self.write_line(f, row, codes)?;
        }
        Ok(())
    }
}
