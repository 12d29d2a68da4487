// The forms that the second edition adds: in a job of the first edition they are none.
ghost use Rattle.std.specs.Prelude.{◌≡◌, List};
ghost use Rattle.text.specs.Template.{Value};
ghost use Rattle.job.specs.Grammar.{Written};
ghost use Rattle.job.specs.Checks.{is_second_of, in_edition_of};
ghost use Rattle.reader.specs.Parsed.{Said};
ghost use Rattle.check_values.specs.Contexts.{context_of};

use check_values::context::Context;
use job::SECOND_EDITION;
use pauli::CONTROLLED_Y;
use reader::Form;
use reader::slots::{GATE, OPERANDS};
use template::values::Values;

// The last code of a gate of the first edition: ControlledY's, which is of the second, follows it.
const FIRST_EDITION_LAST_GATE: u64 = CONTROLLED_Y - 1;

// Whether a line has a form that the second edition adds.
fn is_second(form: Form, f: Values<'_>) -> bool
    ensures { (vs : List Value) (w : Written) → Said form f.entry.words.now vs w → result ≡ is_second_of w }
{
    match form {
        Form::Unitary => FIRST_EDITION_LAST_GATE < f.number(GATE),
        Form::Reset => f.count(OPERANDS) != 1,
        Form::Barrier => true,
        _ => false,
    }
}

// Whether the job's edition has the line's form.
pub fn in_edition(c: Context, form: Form, f: Values<'_>) -> bool
    ensures { (vs : List Value) (w : Written) → Said form f.entry.words.now vs w → result ≡ in_edition_of (context_of c) w }
{
    c.header.edition == SECOND_EDITION || !is_second(form, f)
}
