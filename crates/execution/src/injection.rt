// The faults of a noise line, injected in their shots.
// The lengths of x and z are spelt in each contract, as in propagator.
ghost use Rattle.std.specs.Prelude.{◌≡◌, true, cond, List, ◌++◌, ℕ, ◌+◌, ◌*◌, ◌^◌, ◌<◌, ◌≤◌, length};
ghost use Rattle.job.specs.Line.{SparsePauli, Line};
ghost use Rattle.job.specs.Checks.{all_below, distinct};
ghost use Rattle.draws.specs.Draws.{selected, depolarizing_element_of};
ghost use Rattle.rows.specs.Overwrite.{flipped};
ghost use Rattle.rows.specs.Listed.{RowsIn, over_list};
ghost use Rattle.propagator.specs.Acts.{Acts, line_rule};
ghost use Rattle.faults.specs.Elements.{ElementHeld};
ghost use Rattle.execution.specs.Injected.{ListedHeld, ElementReady, ElementInjected, FaultsReady, FaultsInjected};

use faults::elements::{element_x, element_z};
use noise::{PauliDistribution, PauliFault};
use pauli::{QubitId, Shot};
use rows::Shape;
use shots::{NextFault, next_fault, rule_of};

// ---- The elements of d=2

// Adds 1 to a qubit's bit in one shot, if asked to.
// The condition is a parameter, so that one contract says both cases.
fn flip_if(rows: &mut [u64], width: usize, qubit: QubitId, shot: Shot, on: bool)
    requires { (qubit.0 * width + width ≤ length rows.old) × (shot.0 < 64 * width) }
    ensures { rows.new ≡ cond on (flipped width shot.0 qubit.0 rows.old) rows.old }
{
    if !on {
        return;
    }
    row_loops::flip_bit(rows, width, qubit.0, shot);
}

// Adds 1, in one shot, to the rows of the qubits whose bit is set in `bits`, which has two for each qubit; the lower one is looked at.
fn flip_selected(rows: &mut [u64], width: usize, qubits: &[u64], bits: u64, shot: Shot)
    requires { (shot.0 < 64 * width) × RowsIn width qubits.now rows.old }
    ensures { rows.new ≡ over_list (flipped width shot.0) (selected bits qubits.now) rows.old }
{
    let mut left = bits;
    for &q in qubits {
        flip_if(rows, width, QubitId::from(q), shot, left % 2 == 1);
        left /= 4;
    }
}

// Element e: e + 1 has two bits for each qubit, X lowest.
pub fn inject_depolarizing(
    x: &mut [u64],
    z: &mut [u64],
    shape: Shape,
    shot: Shot,
    qubits: &[u64],
    e: u64,
)
    requires { (length x.old ≡ shape.qubits * shape.width) × (length z.old ≡ shape.qubits * shape.width) × (all_below shape.qubits qubits.now ≡ true) × (distinct qubits.now ≡ true) × (e + 1 < 2 ^ 64) × (shot.0 < 64 * shape.width) }
    ensures { (m : ℕ) (deltas : List ℕ) → Acts shape.width (line_rule shape.qubits m (Line.inject shot.0 (depolarizing_element_of qubits.now e))) x.old z.old deltas x.new z.new deltas }
{
    let bits = e + 1;
    flip_selected(x, shape.width, qubits, bits, shot);
    flip_selected(z, shape.width, qubits, bits / 2, shot);
}

// ---- Any element

// Element e of a distribution, by its two lists.
fn inject_listed(x: &mut [u64], z: &mut [u64], shape: Shape, shot: Shot, elements: &[u64], e: usize)
    requires { ListedHeld shape.qubits elements.now e × (length x.old ≡ shape.qubits * shape.width) × (length z.old ≡ shape.qubits * shape.width) × (shot.0 < 64 * shape.width) }
    ensures { (P : SparsePauli) → ElementHeld elements.now e P → (m : ℕ) (deltas : List ℕ) → Acts shape.width (line_rule shape.qubits m (Line.inject shot.0 P)) x.old z.old deltas x.new z.new deltas }
{
    propagator::paulis::inject_pauli(
        x,
        z,
        shape,
        shot,
        element_x(elements, e),
        element_z(elements, e),
    );
}

// Element e of a distribution. The qubits of d=2 stand as the first list of element 0.
pub fn inject_element(
    x: &mut [u64],
    z: &mut [u64],
    shape: Shape,
    shot: Shot,
    distribution: PauliDistribution,
    elements: &[u64],
    e: u64,
)
    requires { ElementReady shape.qubits distribution elements.now e × (length x.old ≡ shape.qubits * shape.width) × (length z.old ≡ shape.qubits * shape.width) × (shot.0 < 64 * shape.width) }
    ensures { ElementInjected shape.width shape.qubits shot.0 distribution elements.now e x.old z.old x.new z.new }
{
    match distribution {
        PauliDistribution::Depolarizing { qubit_count: _ } => {
            inject_depolarizing(x, z, shape, shot, element_x(elements, 0), e)
        }
        _ => inject_listed(x, z, shape, shot, elements, e as usize),
    }
}

// ---- The faults of a line

// Injects the faults of a noise line, from shot to shot, and returns the position of the next word; None where a word was needed past the end. The
// words are the line's part of the draws, in two pieces; the mask has the shots whose condition is satisfied.
pub fn inject_faults(
    words: &[u64],
    more: &[u64],
    mask: &[u64],
    fault: PauliFault,
    sums: &[f64],
    elements: &[u64],
    x: &mut [u64],
    z: &mut [u64],
    shape: Shape,
) -> Option<usize>
    requires { FaultsReady shape.qubits shape.shots shape.width fault.probability fault.distribution sums.now elements.now mask.now x.old z.old }
    ensures { FaultsInjected shape.qubits shape.shots shape.width fault.probability fault.distribution sums.now elements.now mask.now (words.now ++ more.now) x.old z.old x.new z.new result }
{
    let p = fault.probability;
    let distribution = fault.distribution;
    let rule = rule_of(p, distribution);
    let shots = shape.shots;
    let mut at = 0;
    let mut next_shot = 0;
    // A loop: the shot of a fault says where the next turn begins.
    loop {
        match next_fault(words, more, at, mask, Shot(next_shot), shots, rule, sums) {
            NextFault::Spent => {
                return None;
            }
            NextFault::Done { position } => {
                return Some(position);
            }
            NextFault::At {
                shot,
                element: e,
                position,
            } => {
                inject_element(x, z, shape, shot, distribution, elements, e);
                at = position;
                next_shot = shot.0 + 1;
            }
        }
    }
}
