// Lines that are no noise, on the frames and deltas of many shots:
// each kind of line, by its values in lent words (crate template), goes to the crates propagator and unitaries.
#![tactic(auto)]

ghost use Rattle.std.specs.Prelude.{◌≡◌, List, ℕ, ◌*◌, ◌≤◌, length};
ghost use Rattle.job.specs.Line.{Line};
ghost use Rattle.reader.specs.declared.Form.TheVariants as Forms;
ghost use Rattle.instructions.specs.Plain.{Plain};
ghost use Rattle.totals.specs.Held.{TotalsHeld};
ghost use Rattle.lines.specs.Plain.{Ready, Obeyed, FrameReady, FrameObeyed};

use pauli::{Gate, OutcomeId, Shot};
use reader::Form;
use reader::slots::{
    FLIPPED, GATE, ID, IDS, OPERANDS, PERMUTED, PLACES, SHOT, TABLE, TARGET_X, TARGET_Z, X, Z,
};
use rows::Shape;
use template::values::Values;

// ---- Lines on frames alone

fn unitary(values: Values<'_>, x: &mut [u64], z: &mut [u64], shape: Shape)
    requires { FrameReady Forms.Unitary values.words.now shape.width shape.qubits x.old z.old }
    ensures { FrameObeyed Forms.Unitary values.entry.words.now shape.width shape.qubits x.old z.old x.new z.new }
{
    match Gate::from_code(values.number(GATE)) {
        Some(gate) => {
            unitaries::gates::apply_unitary_op(x, z, shape, gate, values.list(OPERANDS));
        }
        // No line that was read says such a code.
        None => {}
    }
}

fn clifford(values: Values<'_>, x: &mut [u64], z: &mut [u64], scratch: &mut [u64], shape: Shape)
    requires { FrameReady Forms.Clifford values.words.now shape.width shape.qubits x.old z.old × (31 * shape.width ≤ length scratch.old) }
    ensures { FrameObeyed Forms.Clifford values.entry.words.now shape.width shape.qubits x.old z.old x.new z.new }
{
    unitaries::cliffords::apply_clifford(
        x,
        z,
        shape,
        values.list(OPERANDS),
        values.list(TABLE),
        scratch,
    );
}

fn exponential(values: Values<'_>, x: &mut [u64], z: &mut [u64], scratch: &mut [u64], shape: Shape)
    requires { FrameReady Forms.Exponential values.words.now shape.width shape.qubits x.old z.old × (31 * shape.width ≤ length scratch.old) }
    ensures { FrameObeyed Forms.Exponential values.entry.words.now shape.width shape.qubits x.old z.old x.new z.new }
{
    propagator::paulis::apply_pauli_exp(x, z, shape, values.list(X), values.list(Z), scratch);
}

fn controlled(values: Values<'_>, x: &mut [u64], z: &mut [u64], scratch: &mut [u64], shape: Shape)
    requires { FrameReady Forms.Controlled values.words.now shape.width shape.qubits x.old z.old × (31 * shape.width ≤ length scratch.old) }
    ensures { FrameObeyed Forms.Controlled values.entry.words.now shape.width shape.qubits x.old z.old x.new z.new }
{
    propagator::paulis::apply_controlled_pauli(
        x,
        z,
        shape,
        values.list(X),
        values.list(Z),
        values.list(TARGET_X),
        values.list(TARGET_Z),
        scratch,
    );
}

fn permute(values: Values<'_>, x: &mut [u64], z: &mut [u64], scratch: &mut [u64], shape: Shape)
    requires { FrameReady Forms.Permute values.words.now shape.width shape.qubits x.old z.old × (31 * shape.width ≤ length scratch.old) }
    ensures { FrameObeyed Forms.Permute values.entry.words.now shape.width shape.qubits x.old z.old x.new z.new }
{
    unitaries::cliffords::apply_permutation(
        x,
        z,
        shape,
        values.list(PLACES),
        values.list(PERMUTED),
        scratch,
    );
}

fn reset(values: Values<'_>, x: &mut [u64], z: &mut [u64], shape: Shape)
    requires { FrameReady Forms.Reset values.words.now shape.width shape.qubits x.old z.old }
    ensures { FrameObeyed Forms.Reset values.entry.words.now shape.width shape.qubits x.old z.old x.new z.new }
{
    propagator::paulis::reset_qubits(x, z, shape, values.list(OPERANDS));
}

fn inject(values: Values<'_>, x: &mut [u64], z: &mut [u64], shape: Shape)
    requires { FrameReady Forms.Inject values.words.now shape.width shape.qubits x.old z.old }
    ensures { FrameObeyed Forms.Inject values.entry.words.now shape.width shape.qubits x.old z.old x.new z.new }
{
    let shot = Shot(values.number(SHOT) as usize);
    propagator::paulis::inject_pauli(x, z, shape, shot, values.list(X), values.list(Z));
}

// ---- Lines on deltas, or by them

fn measure(
    values: Values<'_>,
    x: &[u64],
    z: &[u64],
    deltas: &mut [u64],
    totals: &mut [u64],
    shape: Shape,
)
    requires { Ready Forms.Measure values.words.now shape.width shape.qubits shape.outcomes x.now z.now deltas.old × TotalsHeld shape.width shape.outcomes deltas.old totals.old }
    ensures { Obeyed Forms.Measure values.entry.words.now shape.width shape.qubits shape.outcomes x.now z.now deltas.old x.now z.now deltas.new × TotalsHeld shape.width shape.outcomes deltas.new totals.new }
{
    let outcome = OutcomeId(values.number(ID) as usize);
    propagator::paulis::measure(
        x,
        z,
        deltas,
        totals,
        shape,
        values.list(X),
        values.list(Z),
        outcome,
    );
}

fn conditional(
    values: Values<'_>,
    x: &mut [u64],
    z: &mut [u64],
    deltas: &[u64],
    scratch: &mut [u64],
    shape: Shape,
)
    requires { Ready Forms.Conditional values.words.now shape.width shape.qubits shape.outcomes x.old z.old deltas.now × (31 * shape.width ≤ length scratch.old) }
    ensures { Obeyed Forms.Conditional values.entry.words.now shape.width shape.qubits shape.outcomes x.old z.old deltas.now x.new z.new deltas.now }
{
    propagator::paulis::apply_conditional_pauli(
        x,
        z,
        deltas,
        shape,
        values.list(X),
        values.list(Z),
        values.list(IDS),
        scratch,
    );
}

fn flip(values: Values<'_>, deltas: &mut [u64], totals: &mut [u64], shape: Shape)
    requires { ((n : ℕ) × (line : Line) × Plain Forms.Flip values.words.now shape.width n shape.outcomes line) × (length deltas.old ≡ shape.outcomes * shape.width) × TotalsHeld shape.width shape.outcomes deltas.old totals.old }
    ensures { ((n : ℕ) (x z : List ℕ) → Obeyed Forms.Flip values.entry.words.now shape.width n shape.outcomes x z deltas.old x z deltas.new) × TotalsHeld shape.width shape.outcomes deltas.new totals.new }
{
    let shot = Shot(values.number(SHOT) as usize);
    let outcome = OutcomeId(values.number(FLIPPED) as usize);
    propagator::paulis::inject_outcome_flip(deltas, totals, shape, shot, outcome);
}

// ---- Any of them

// A line of a form. Those that are not named do nothing. Before and after every line each total is how many bits of its row of deltas are 1. A line
// takes at most 31 rows of scratch: a permutation's.
pub fn apply_line(
    form: Form,
    values: Values<'_>,
    x: &mut [u64],
    z: &mut [u64],
    deltas: &mut [u64],
    totals: &mut [u64],
    scratch: &mut [u64],
    shape: Shape,
)
    requires { Ready form values.words.now shape.width shape.qubits shape.outcomes x.old z.old deltas.old × (31 * shape.width ≤ length scratch.old) × TotalsHeld shape.width shape.outcomes deltas.old totals.old }
    ensures { Obeyed form values.entry.words.now shape.width shape.qubits shape.outcomes x.old z.old deltas.old x.new z.new deltas.new × TotalsHeld shape.width shape.outcomes deltas.new totals.new }
{
    match form {
        Form::Unitary => unitary(values, x, z, shape),
        Form::Clifford => clifford(values, x, z, scratch, shape),
        Form::Exponential => exponential(values, x, z, scratch, shape),
        Form::Controlled => controlled(values, x, z, scratch, shape),
        Form::Permute => permute(values, x, z, scratch, shape),
        Form::Measure => measure(values, x, z, deltas, totals, shape),
        Form::Conditional => conditional(values, x, z, deltas, scratch, shape),
        Form::Reset => reset(values, x, z, shape),
        Form::Inject => inject(values, x, z, shape),
        Form::Flip => flip(values, deltas, totals, shape),
        _ => {}
    }
}
