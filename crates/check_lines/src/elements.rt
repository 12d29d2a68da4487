// The element lines of a noise line: their tests, where they are due, and the sum of their weights.
ghost use Rattle.std.specs.Prelude.{◌≡◌, Bool, true, false, cond, not, ◌&&◌, List, ◌-◌, ◌≤◌, ltb, Float};
ghost use Rattle.std.proofs.Math.Option.{some};
ghost use Rattle.text.specs.Template.{Value};
ghost use Rattle.job.specs.Grammar.{Written};
ghost use Rattle.job.specs.Refusals.{refusal_in};
ghost use Rattle.job.specs.Checks.{Context as Checks-as-Context, lowest, own_tests, expected as Checks·expected, next as Checks·next, refusal_of};
ghost use Rattle.reader.specs.declared.Form.TheVariants as form;
ghost use Rattle.reader.specs.Parsed.{form_of, is_unread, Said};
ghost use Rattle.check_values.specs.Contexts.{context_of};
ghost use Rattle.instructions.specs.Reading.{has_total};

use check_values::context::Context;
use check_values::floats::{is_total, weight};
use check_values::lists::pauli_number;
use job::refusals::Refusal;
use reader::Form;
use reader::slots::{ELEMENT_COUNT, PAULI_END, WEIGHT, X};
use template::values::Values;

// The tests of an element line with a weight, after 2 and 3.
pub fn weighted_element_number(c: Context, f: Values<'_>) -> Result<(), Refusal>
    ensures { (vs : List Value) (w : Written) → Said form.WeightedElement f.entry.words.now vs w → c.weighted ≡ true → refusal_in result ≡ lowest (own_tests (context_of c) w) }
{
    pauli_number(f, X, PAULI_END, c.header.qubits)?;
    let Some(element_weight) = weight(f.number(WEIGHT)) else {
        return Err(Refusal::Elements);
    };
    // The total is tested at the last element line.
    if c.due != 1 {
        return Ok(());
    }
    if !is_total(c.total + element_weight) {
        return Err(Refusal::Elements);
    }
    Ok(())
}

// Whether an element line is due, with a weight or without.
fn element_due(c: Context, weighted: bool) -> bool
    ensures { result ≡ (ltb 0 c.due && cond weighted c.weighted (not c.weighted)) }
{
    0 < c.due && c.weighted == weighted
}

// Whether a line of this form may stand here: an element line where one is due, and else another. The values are for the contract alone.
pub fn expected(c: Context, form: Form, f: &[u64]) -> bool
    ensures { (is_unread form ≡ true → result ≡ false) × ((vs : List Value) (w : Written) → Said form f.now vs w → result ≡ Checks·expected (context_of c) w) }
{
    match form {
        Form::Unread => false,
        Form::Element => element_due(c, false),
        Form::WeightedElement => element_due(c, true),
        _ => c.due == 0,
    }
}

// How many element lines are due after the line.
pub fn due_after(c: Context, form: Form, f: Values<'_>) -> u64
    ensures { (vs : List Value) (w : Written) → Said form f.entry.words.now vs w → result ≡ (Checks·next (context_of c) w).due }
{
    match form {
        Form::Uniform | Form::Weighted => f.number(ELEMENT_COUNT),
        Form::Element | Form::WeightedElement => c.due.saturating_sub(1),
        _ => 0,
    }
}

// Whether the job ends before the element lines that are due.
pub fn missing(c: Context, last: bool, form: Form, f: Values<'_>) -> bool
    ensures { (vs : List Value) (w : Written) → Said form f.entry.words.now vs w → result ≡ (last && ltb 0 (Checks·next (context_of c) w).due) }
{
    last && 0 < due_after(c, form, f)
}

// The sum of the weights after the line: of an element line that passed, with its weight.
pub fn total_after(c: Context, form: Form, f: Values<'_>) -> f64
    ensures { (last : Bool) (vs : List Value) (w : Written) → Said form f.entry.words.now vs w → refusal_of (context_of c) last (some w) ≡ 0 → (t : Float) → (Checks·next (context_of c) w).total ≡ some t → result ≡ t }
{
    let Form::WeightedElement = form else {
        return 0.0;
    };
    match weight(f.number(WEIGHT)) {
        Some(element_weight) => c.total + element_weight,
        None => c.total,
    }
}

// Whether the element lines that are due after the line have weights.
pub fn weighted_after(form: Form) -> bool
    ensures { (c : Checks-as-Context) (vs : List Value) (w : Written) → (form_of form).says vs ≡ some w → Checks·expected c w ≡ true → result ≡ has_total (Checks·next c w).total }
{
    matches!(form, Form::Weighted | Form::WeightedElement)
}
