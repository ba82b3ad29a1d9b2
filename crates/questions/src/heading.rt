ghost use Rattle.std.specs.Prelude.{◌≡◌, ◌<◌};
ghost use Rattle.questions.specs.Layouts.{variables_of, form_of};
ghost use Rattle.questions.specs.Writing.{first_byte};

use super::form::Form;

// What the first byte of an entry says.
#[derive(Clone, Copy)]
pub struct Heading {
    pub variables: u8,
    pub form: Form,
    // with 16 more it is still a byte
    ghost fits: { variables < 240 },
}

impl From<u8> for Heading {
    ghost from_gives = { λ first heading. (heading.variables ≡ variables_of first) × (heading.form ≡ form_of first) };

    fn from(first: u8) -> Heading {
        if first < 16 {
            Heading {
                variables: first,
                form: Form::TwoRows,
            }
        } else {
            Heading {
                variables: first - 16,
                form: Form::OneRow,
            }
        }
    }
}

impl From<Heading> for u8 {
    ghost from_gives = { λ heading first. first ≡ first_byte heading.variables heading.form };

    fn from(heading: Heading) -> u8 {
        match heading.form {
            Form::TwoRows => heading.variables,
            Form::OneRow => 16 + heading.variables,
        }
    }
}
