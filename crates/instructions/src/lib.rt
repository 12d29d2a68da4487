// A line of a job that was read: its form, and how many element lines follow it. That an accepted job, read line by line, gives its instructions one
// after the other is in specs/Ahead; the crate known_lines reads its lines. The layers above know a line by its form and its values, not by its text.
#![tactic(auto)]

ghost use Rattle.std.specs.Prelude.{◌≡◌, List};
ghost use Rattle.std.proofs.Math.Option.{some};
ghost use Rattle.text.specs.Template.{Value};
ghost use Rattle.job.specs.Grammar.{NoiseLine, Written};
ghost use Rattle.job.specs.Checks.{element_lines_of};
ghost use Rattle.reader.specs.Parsed.{form_of, Said};
ghost use Rattle.instructions.specs.Reading.{noise_form};
ghost use Rattle.instructions.specs.Ahead.{has_weights_of};

use reader::Form;
use reader::slots::ELEMENT_COUNT;
use template::values::Values;

// A line that was read: its form, and the place of the LF that ends it. The next line begins after that.
#[derive(Clone, Copy)]
pub struct LineRead {
    pub form: Form,
    pub end: usize,
}

pub fn is_noise(form: Form) -> bool
    ensures { result ≡ noise_form form }
{
    match form {
        Form::Single => true,
        Form::Depolarizing => true,
        Form::Uniform => true,
        Form::Weighted => true,
        _ => false,
    }
}

// How many element lines follow a noise line.
pub fn element_lines(form: Form, f: Values<'_>) -> usize
    ensures { (vs : List Value) (n : NoiseLine) → Said form f.entry.words.now vs (Written.noise n) → result ≡ element_lines_of n.kind }
{
    match form {
        Form::Uniform => f.number(ELEMENT_COUNT) as usize,
        Form::Weighted => f.number(ELEMENT_COUNT) as usize,
        _ => 0,
    }
}

// Whether the elements of a noise line have weights.
pub fn has_weights(form: Form) -> bool
    ensures { (vs : List Value) (n : NoiseLine) → (form_of form).says vs ≡ some (Written.noise n) → result ≡ has_weights_of n.kind }
{
    match form {
        Form::Weighted => true,
        _ => false,
    }
}
