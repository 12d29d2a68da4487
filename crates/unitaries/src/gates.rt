// Unitary gates. A frame goes through a gate by conjugation; signs are not kept, so that a gate and its inverse do the same.
ghost use Rattle.std.specs.Prelude.{◌≡◌, true, List, ℕ, ◌*◌, ◌<◌, length};
ghost use Rattle.pauli.specs.Gate.{operands_of, swap_XZ, add_xto_Z, add_zto_X, controlled_X, controlled_Z, controlled_Y, swap_rows_of};
ghost use Rattle.pauli.specs.Code.{gate_named};
ghost use Rattle.job.specs.Line.{Line};
ghost use Rattle.job.specs.Checks.{all_below, distinct};
ghost use Rattle.frames.specs.Forward.{on_frame};
ghost use Rattle.propagator.specs.Acts.{Acts, line_rule};

use pauli::{Gate, QubitId, qubit_at};
use rows::Shape;

// Hadamard and SqrtY swap X and Z rows.
pub fn apply_h(x: &mut [u64], z: &mut [u64], shape: Shape, qubit: QubitId)
    requires { (length x.old ≡ shape.qubits * shape.width) × (length z.old ≡ shape.qubits * shape.width) × (qubit.0 < shape.qubits) }
    ensures { (d : List ℕ) → Acts shape.width (λ s. on_frame (swap_XZ qubit.0)) x.old z.old d x.new z.new d }
{
    let q = qubit.0;
    row_loops::swap_words(x, z, q * shape.width, shape.width);
}

// SqrtZ adds X to Z.
pub fn apply_s(x: &[u64], z: &mut [u64], shape: Shape, qubit: QubitId)
    requires { (length x.now ≡ shape.qubits * shape.width) × (length z.old ≡ shape.qubits * shape.width) × (qubit.0 < shape.qubits) }
    ensures { (d : List ℕ) → Acts shape.width (λ s. on_frame (add_xto_Z qubit.0)) x.now z.old d x.now z.new d }
{
    let q = qubit.0;
    row_loops::xor_words(z, q * shape.width, x, q * shape.width, shape.width);
}

// SqrtX adds Z to X.
pub fn apply_sqrt_x(x: &mut [u64], z: &[u64], shape: Shape, qubit: QubitId)
    requires { (length x.old ≡ shape.qubits * shape.width) × (length z.now ≡ shape.qubits * shape.width) × (qubit.0 < shape.qubits) }
    ensures { (d : List ℕ) → Acts shape.width (λ s. on_frame (add_zto_X qubit.0)) x.old z.now d x.new z.now d }
{
    let q = qubit.0;
    row_loops::xor_words(x, q * shape.width, z, q * shape.width, shape.width);
}

// ControlledX adds control X to target X, target Z to control Z.
pub fn apply_cnot(x: &mut [u64], z: &mut [u64], shape: Shape, control: QubitId, target: QubitId)
    requires { (length x.old ≡ shape.qubits * shape.width) × (length z.old ≡ shape.qubits * shape.width) × (control.0 < shape.qubits) × (target.0 < shape.qubits) × (control.0 ≡ target.0 → ⊥) }
    ensures { (d : List ℕ) → Acts shape.width (λ s. on_frame (controlled_X control.0 target.0)) x.old z.old d x.new z.new d }
{
    let control_row = control.0;
    let target_row = target.0;
    row_loops::add_row(x, shape.width, target_row, control_row);
    row_loops::add_row(z, shape.width, control_row, target_row);
}

// ControlledZ adds each X to the other's Z.
pub fn apply_cz(x: &[u64], z: &mut [u64], shape: Shape, first: QubitId, second: QubitId)
    requires { (length x.now ≡ shape.qubits * shape.width) × (length z.old ≡ shape.qubits * shape.width) × (first.0 < shape.qubits) × (second.0 < shape.qubits) }
    ensures { (d : List ℕ) → Acts shape.width (λ s. on_frame (controlled_Z first.0 second.0)) x.now z.old d x.now z.new d }
{
    let first_row = first.0;
    let second_row = second.0;
    row_loops::xor_words(
        z,
        second_row * shape.width,
        x,
        first_row * shape.width,
        shape.width,
    );
    row_loops::xor_words(
        z,
        first_row * shape.width,
        x,
        second_row * shape.width,
        shape.width,
    );
}

// ControlledY adds control X to target X and Z, and the target's old X and Z to control Z: ControlledX between SqrtZInv and SqrtZ on the target.
pub fn apply_cy(x: &mut [u64], z: &mut [u64], shape: Shape, control: QubitId, target: QubitId)
    requires { (length x.old ≡ shape.qubits * shape.width) × (length z.old ≡ shape.qubits * shape.width) × (control.0 < shape.qubits) × (target.0 < shape.qubits) × (control.0 ≡ target.0 → ⊥) }
    ensures { (d : List ℕ) → Acts shape.width (λ s. on_frame (controlled_Y control.0 target.0)) x.old z.old d x.new z.new d }
{
    apply_s(x, z, shape, target);
    apply_cnot(x, z, shape, control, target);
    apply_s(x, z, shape, target);
}

// Swap exchanges two qubits' rows.
pub fn apply_swap(x: &mut [u64], z: &mut [u64], shape: Shape, first: QubitId, second: QubitId)
    requires { (length x.old ≡ shape.qubits * shape.width) × (length z.old ≡ shape.qubits * shape.width) × (first.0 < shape.qubits) × (second.0 < shape.qubits) × (first.0 ≡ second.0 → ⊥) }
    ensures { (d : List ℕ) → Acts shape.width (λ s. on_frame (swap_rows_of first.0 second.0)) x.old z.old d x.new z.new d }
{
    let first_row = first.0;
    let second_row = second.0;
    row_loops::swap_rows(x, shape.width, first_row, second_row);
    row_loops::swap_rows(z, shape.width, first_row, second_row);
}

// A gate on as many operands as it takes. The last operand is the second of two; a gate on one qubit does not look at it.
pub fn apply_unitary_op(x: &mut [u64], z: &mut [u64], shape: Shape, gate: Gate, qubits: &[u64])
    requires { (length x.old ≡ shape.qubits * shape.width) × (length z.old ≡ shape.qubits * shape.width) × (length qubits.now ≡ operands_of (gate_named gate)) × (all_below shape.qubits qubits.now ≡ true) × (distinct qubits.now ≡ true) }
    ensures { (m : ℕ) (d : List ℕ) → Acts shape.width (line_rule shape.qubits m (Line.unitary (gate_named gate) qubits.now)) x.old z.old d x.new z.new d }
{
    let a = qubit_at(qubits, 0);
    let b = qubit_at(qubits, qubits.len() - 1);
    match gate {
        Gate::I | Gate::X | Gate::Y | Gate::Z => {}
        Gate::Hadamard | Gate::SqrtY | Gate::SqrtYInv => apply_h(x, z, shape, a),
        Gate::SqrtZ | Gate::SqrtZInv => apply_s(x, z, shape, a),
        Gate::SqrtX | Gate::SqrtXInv => apply_sqrt_x(x, z, shape, a),
        Gate::ControlledX => apply_cnot(x, z, shape, a, b),
        Gate::ControlledZ => apply_cz(x, z, shape, a, b),
        Gate::ControlledY => apply_cy(x, z, shape, a, b),
        Gate::Swap => apply_swap(x, z, shape, a, b),
        Gate::PrepareBell => {
            apply_h(x, z, shape, a);
            apply_cnot(x, z, shape, a, b);
        }
    }
}
