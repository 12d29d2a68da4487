// Tests 2 to 12, 20, 21 and 23 of a line, and the context after one that passed. docs/REFUSALS.md says what each number means.
ghost use Rattle.std.specs.Prelude.{◌≡◌, Bool, true, List, ◌+◌, ◌^◌, ◌≤◌, ◌<◌};
ghost use Rattle.std.proofs.Math.Option.{some};
ghost use Rattle.text.specs.Template.{Value};
ghost use Rattle.job.specs.Grammar.{Written};
ghost use Rattle.job.specs.Refusals.{refusal_in};
ghost use Rattle.job.specs.Checks.{lowest, own_tests, expected as Checks·expected, next as Checks·next, refusal_of};
ghost use Rattle.reader.specs.Parsed.{is_unread, Said};
ghost use Rattle.check_values.specs.Contexts.{context_of};

use check_lines::editions::in_edition;
use check_lines::elements::{
    due_after, expected, missing, total_after, weighted_after, weighted_element_number,
};
use check_lines::header::{edition_number, header_after, header_fits};
use check_lines::noise_lines::{depolarizing_number, listed_number, single_number};
use check_lines::{
    allocate_number, clifford_number, conditional_number, controlled_number, flip_number,
    inject_number, measure_number, operands_number, permute_number, recorded_after, unitary_number,
};
use check_values::context::Context;
use check_values::lists::pauli_number;
use job::refusals::Refusal;
use reader::Form;
use reader::slots::{EDITION, PAULI_END, X};
use template::values::Values;

// The tests of a line by its own form.
fn own_number(c: Context, form: Form, f: Values<'_>) -> Result<(), Refusal>
    ensures { (vs : List Value) (w : Written) → Said form f.entry.words.now vs w → Checks·expected (context_of c) w ≡ true → refusal_in result ≡ lowest (own_tests (context_of c) w) }
{
    match form {
        Form::Unread => Err(Refusal::Form),
        Form::Header => Ok(()),
        Form::Unitary => unitary_number(c, f),
        Form::Clifford => clifford_number(c, f),
        Form::Pauli => pauli_number(f, X, PAULI_END, c.header.qubits),
        Form::Exponential => pauli_number(f, X, PAULI_END, c.header.qubits),
        Form::Controlled => controlled_number(c, f),
        Form::Permute => permute_number(c, f),
        Form::Measure => measure_number(c, f),
        Form::Allocate => allocate_number(c, f),
        Form::Conditional => conditional_number(c, f),
        Form::Reset => operands_number(f, c.header.qubits),
        Form::Inject => inject_number(c, f),
        Form::Flip => flip_number(c, f),
        Form::Single => single_number(c, f),
        Form::Depolarizing => depolarizing_number(c, f),
        Form::Uniform => listed_number(c, f),
        Form::Weighted => listed_number(c, f),
        Form::Element => pauli_number(f, X, PAULI_END, c.header.qubits),
        Form::WeightedElement => weighted_element_number(c, f),
        Form::EditionHeader => edition_number(f.number(EDITION)),
        Form::Barrier => operands_number(f, c.header.qubits),
    }
}

// The tests of a line. `last` says whether it is the job's last.
pub fn refusal(c: Context, last: bool, form: Form, f: Values<'_>) -> Result<(), Refusal>
    ensures { (is_unread form ≡ true → refusal_in result ≡ 2) × ((vs : List Value) (w : Written) → Said form f.entry.words.now vs w → refusal_in result ≡ refusal_of (context_of c) last (some w)) }
{
    if !expected(c, form, f.words) {
        return Err(Refusal::Form);
    }
    if missing(c, last, form, f) {
        return Err(Refusal::Form);
    }
    if !in_edition(c, form, f) {
        return Err(Refusal::Form);
    }
    if !header_fits(c, form, f) {
        return Err(Refusal::Header);
    }
    own_number(c, form, f)
}

// The context behind a line that passed: a header has come, with it or before it.
pub fn next(c: Context, form: Form, f: Values<'_>) -> Context
    requires { c.recorded + 1 < 2 ^ 64 }
    ensures { (last : Bool) (vs : List Value) (w : Written) → Said form f.entry.words.now vs w → refusal_of (context_of c) last (some w) ≡ 0 → context_of result ≡ Checks·next (context_of c) w }
{
    Context {
        begun: true,
        header: header_after(c, form, f),
        recorded: recorded_after(c, form),
        due: due_after(c, form, f),
        weighted: weighted_after(form),
        total: total_after(c, form, f),
    }
}
