// Paulis that are added to frames: where frames anticommute with a Pauli, where deltas sum to 1, in one shot. Also measurement and reset.
// A mask has a bit for each shot. Masks are rows of lent words, the scratch, so that what holds here holds for any number of words a row.
ghost use Rattle.std.specs.Prelude.{◌≡◌, Bool, true, List, ℕ, ◌+◌, ◌*◌, ◌<◌, ◌≤◌, length};
ghost use Rattle.pauli.specs.Pauli.{when, ◌∗◌ as ◌times◌};
ghost use Rattle.job.specs.Line.{Line, pauli_of};
ghost use Rattle.job.specs.Checks.{all_below, distinct};
ghost use Rattle.frames.specs.Forward.{on_frame};
ghost use Rattle.rows.specs.Column.{column};
ghost use Rattle.totals.specs.Held.{TotalsHeld};
ghost use Rattle.propagator.specs.Acts.{Acts, line_rule, written, PauliIn, MaskPut};

use pauli::{OutcomeId, Shot};
use rows::Shape;

// ---- Masks

// Puts for row r the shots whose frame anticommutes with a Pauli: X parts of the frame on its Z parts, plus the reverse.
fn anticommutation_mask(
    masks: &mut [u64],
    r: usize,
    x: &[u64],
    z: &[u64],
    shape: Shape,
    px: &[u64],
    pz: &[u64],
)
    requires { (r * shape.width + shape.width ≤ length masks.old) × (length x.now ≡ shape.qubits * shape.width) × (length z.now ≡ shape.qubits * shape.width) × PauliIn shape.qubits px.now pz.now }
    ensures { MaskPut shape.width shape.qubits (written px.now pz.now) r x.now z.now masks.old masks.new }
{
    row_loops::sum_listed(&mut *masks, r, x, shape.width, pz);
    row_loops::add_listed(masks, r, z, shape.width, px);
}

// Adds a Pauli in the shots of a mask, row r.
fn add_pauli(
    x: &mut [u64],
    z: &mut [u64],
    shape: Shape,
    px: &[u64],
    pz: &[u64],
    masks: &[u64],
    r: usize,
)
    requires { (r * shape.width + shape.width ≤ length masks.now) × (length x.old ≡ shape.qubits * shape.width) × (length z.old ≡ shape.qubits * shape.width) × PauliIn shape.qubits px.now pz.now }
    ensures { (d : List ℕ) → Acts shape.width (λ s. on_frame (λ F. F times when (column shape.width masks.now s r) (pauli_of (written px.now pz.now)))) x.old z.old d x.new z.new d }
{
    row_loops::add_mask_listed(x, shape.width, px, masks, r);
    row_loops::add_mask_listed(z, shape.width, pz, masks, r);
}

// ---- Exponentials and controlled Paulis

// The exponential of a Pauli adds it where the frame anticommutes with it.
pub fn apply_pauli_exp(
    x: &mut [u64],
    z: &mut [u64],
    shape: Shape,
    px: &[u64],
    pz: &[u64],
    scratch: &mut [u64],
)
    requires { (shape.width ≤ length scratch.old) × (length x.old ≡ shape.qubits * shape.width) × (length z.old ≡ shape.qubits * shape.width) × PauliIn shape.qubits px.now pz.now }
    ensures { (m : ℕ) (d : List ℕ) → Acts shape.width (line_rule shape.qubits m (Line.exponential (written px.now pz.now))) x.old z.old d x.new z.new d }
{
    anticommutation_mask(&mut *scratch, 0, x, z, shape, px, pz);
    add_pauli(x, z, shape, px, pz, scratch, 0);
}

// A controlled Pauli takes both masks first, then adds the target under the control's mask and the control under the target's.
pub fn apply_controlled_pauli(
    x: &mut [u64],
    z: &mut [u64],
    shape: Shape,
    cx: &[u64],
    cz: &[u64],
    tx: &[u64],
    tz: &[u64],
    scratch: &mut [u64],
)
    requires { (2 * shape.width ≤ length scratch.old) × (length x.old ≡ shape.qubits * shape.width) × (length z.old ≡ shape.qubits * shape.width) × PauliIn shape.qubits cx.now cz.now × PauliIn shape.qubits tx.now tz.now }
    ensures { (m : ℕ) (d : List ℕ) → Acts shape.width (line_rule shape.qubits m (Line.controlled (written cx.now cz.now) (written tx.now tz.now))) x.old z.old d x.new z.new d }
{
    anticommutation_mask(&mut *scratch, 0, x, z, shape, cx, cz);
    anticommutation_mask(&mut *scratch, 1, x, z, shape, tx, tz);
    add_pauli(x, z, shape, tx, tz, scratch, 0);
    add_pauli(x, z, shape, cx, cz, scratch, 1);
}

// ---- Measurement and what goes by its outcomes

// Measuring adds to the outcome's row the shots whose frame anticommutes with the observable. The row is counted then.
pub fn measure(
    x: &[u64],
    z: &[u64],
    deltas: &mut [u64],
    totals: &mut [u64],
    shape: Shape,
    px: &[u64],
    pz: &[u64],
    outcome: OutcomeId,
)
    requires { (length x.now ≡ shape.qubits * shape.width) × (length z.now ≡ shape.qubits * shape.width) × (length deltas.old ≡ shape.outcomes * shape.width) × PauliIn shape.qubits px.now pz.now × (outcome.0 < shape.outcomes) × TotalsHeld shape.width shape.outcomes deltas.old totals.old }
    ensures { Acts shape.width (line_rule shape.qubits shape.outcomes (Line.measure (written px.now pz.now) outcome.0)) x.now z.now deltas.old x.now z.now deltas.new × TotalsHeld shape.width shape.outcomes deltas.new totals.new }
{
    let id = outcome.0;
    row_loops::add_listed(&mut *deltas, id, x, shape.width, pz);
    row_loops::add_listed(&mut *deltas, id, z, shape.width, px);
    totals::recount(deltas, totals, shape.width, outcome);
}

// A conditional Pauli is added where the listed deltas sum to 1, since there its condition came out the other way. The parity that it is
// compared with is ignored.
pub fn apply_conditional_pauli(
    x: &mut [u64],
    z: &mut [u64],
    deltas: &[u64],
    shape: Shape,
    px: &[u64],
    pz: &[u64],
    outcomes: &[u64],
    scratch: &mut [u64],
)
    requires { (shape.width ≤ length scratch.old) × (length x.old ≡ shape.qubits * shape.width) × (length z.old ≡ shape.qubits * shape.width) × (length deltas.now ≡ shape.outcomes * shape.width) × PauliIn shape.qubits px.now pz.now × (all_below shape.outcomes outcomes.now ≡ true) × (distinct outcomes.now ≡ true) }
    ensures { (parity : Bool) → Acts shape.width (line_rule shape.qubits shape.outcomes (Line.conditional (written px.now pz.now) outcomes.now parity)) x.old z.old deltas.now x.new z.new deltas.now }
{
    row_loops::sum_listed(&mut *scratch, 0, deltas, shape.width, outcomes);
    add_pauli(x, z, shape, px, pz, scratch, 0);
}

// Reset clears both rows of each listed qubit.
pub fn reset_qubits(x: &mut [u64], z: &mut [u64], shape: Shape, qubits: &[u64])
    requires { (length x.old ≡ shape.qubits * shape.width) × (length z.old ≡ shape.qubits * shape.width) × (all_below shape.qubits qubits.now ≡ true) }
    ensures { (m : ℕ) (d : List ℕ) → Acts shape.width (line_rule shape.qubits m (Line.reset qubits.now)) x.old z.old d x.new z.new d }
{
    row_loops::clear_listed(x, shape.width, qubits);
    row_loops::clear_listed(z, shape.width, qubits);
}

// ---- Single shots

// Adds a Pauli in one shot.
pub fn inject_pauli(x: &mut [u64], z: &mut [u64], shape: Shape, shot: Shot, px: &[u64], pz: &[u64])
    requires { (length x.old ≡ shape.qubits * shape.width) × (length z.old ≡ shape.qubits * shape.width) × PauliIn shape.qubits px.now pz.now × (shot.0 < 64 * shape.width) }
    ensures { (m : ℕ) (d : List ℕ) → Acts shape.width (line_rule shape.qubits m (Line.inject shot.0 (written px.now pz.now))) x.old z.old d x.new z.new d }
{
    row_loops::flip_listed(x, shape.width, px, shot);
    row_loops::flip_listed(z, shape.width, pz, shot);
}

// Adds 1 to an outcome's delta in one shot.
pub fn inject_outcome_flip(
    deltas: &mut [u64],
    totals: &mut [u64],
    shape: Shape,
    shot: Shot,
    outcome: OutcomeId,
)
    requires { (length deltas.old ≡ shape.outcomes * shape.width) × (outcome.0 < shape.outcomes) × (shot.0 < 64 * shape.width) × TotalsHeld shape.width shape.outcomes deltas.old totals.old }
    ensures { ((n : ℕ) (x z : List ℕ) → Acts shape.width (line_rule n shape.outcomes (Line.flip shot.0 outcome.0)) x z deltas.old x z deltas.new) × TotalsHeld shape.width shape.outcomes deltas.new totals.new }
{
    totals::flip_counted(deltas, totals, shape, outcome, shot);
}
