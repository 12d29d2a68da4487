// Cliffords by their tables, and permutations. The operands' rows are saved in lent words, the scratch, and cleared; then what each saved row goes to
// is added.
ghost use Rattle.std.specs.Prelude.{◌≡◌, true, List, ℕ, ◌+◌, ◌*◌, ◌<◌, ◌≤◌, length};
ghost use Rattle.pauli.specs.Pauli.{when, ◌∗◌ as ◌times◌};
ghost use Rattle.job.specs.Line.{Line};
ghost use Rattle.job.specs.Clifford.{table_of};
ghost use Rattle.tables.specs.Rows.{TableFor};
ghost use Rattle.job.specs.Checks.{all_below, is_permutation};
ghost use Rattle.frames.specs.Forward.{on_frame, table_row};
ghost use Rattle.rows.specs.Column.{column};
ghost use Rattle.propagator.specs.Acts.{Acts, line_rule};
ghost use Rattle.unitaries.specs.Images.{RowAdded, ImagesAdded, PlacesAdded, RowsPermuted};

use pauli::{QubitId, qubit_at};
use rows::Shape;

// ---- Cliffords

// Adds row i of src to a qubit's row, if asked to.
// The condition is a parameter, so that one contract says both cases.
fn add_row_if(dst: &mut [u64], w: usize, qubit: QubitId, src: &[u64], i: usize, on: bool)
    requires { (qubit.0 * w + w ≤ length dst.old) × (i * w + w ≤ length src.now) }
    ensures { RowAdded w on qubit.0 i src.now dst.old dst.new }
{
    if !on {
        return;
    }
    let q = qubit.0;
    row_loops::xor_words(dst, q * w, src, i * w, w);
}

// Adds row r of the table on the operands in the shots of saved row r.
fn add_image(
    x: &mut [u64],
    z: &mut [u64],
    shape: Shape,
    qubits: &[u64],
    table: &[u64],
    saved: &[u64],
    r: usize,
)
    requires { (length x.old ≡ shape.qubits * shape.width) × (length z.old ≡ shape.qubits * shape.width) × TableFor (length qubits.now) table.now × (all_below shape.qubits qubits.now ≡ true) × (r < 2 * length qubits.now) × (r * shape.width + shape.width ≤ length saved.now) }
    ensures { (d : List ℕ) → Acts shape.width (λ s. on_frame (λ F. F times when (column shape.width saved.now s r) (table_row qubits.now (table_of table.now) r))) x.old z.old d x.new z.new d }
{
    let k = qubits.len();
    let row = tables::row(table, k, r);
    for j in 0..k {
        let q = qubit_at(qubits, j);
        add_row_if(x, shape.width, q, saved, r, (row >> j) % 2 == 1);
        add_row_if(z, shape.width, q, saved, r, (row >> (k + j)) % 2 == 1);
    }
}

// Adds the images of the operands' saved X parts, rows 0 to k-1 of the table, and of their Z parts, the next k. They are saved in this order.
fn add_images(
    x: &mut [u64],
    z: &mut [u64],
    shape: Shape,
    qubits: &[u64],
    table: &[u64],
    saved: &[u64],
)
    requires { (length x.old ≡ shape.qubits * shape.width) × (length z.old ≡ shape.qubits * shape.width) × TableFor (length qubits.now) table.now × (all_below shape.qubits qubits.now ≡ true) × ((length qubits.now + length qubits.now) * shape.width ≤ length saved.now) }
    ensures { ImagesAdded shape.width qubits.now (table_of table.now) saved.now x.old z.old x.new z.new }
{
    let k = qubits.len();
    for i in 0..k {
        add_image(x, z, shape, qubits, table, saved, i);
        add_image(x, z, shape, qubits, table, saved, k + i);
    }
}

// A Clifford sums the images of the frame's parts. Two rows are saved for each operand.
pub fn apply_clifford(
    x: &mut [u64],
    z: &mut [u64],
    shape: Shape,
    qubits: &[u64],
    table: &[u64],
    scratch: &mut [u64],
)
    requires { ((length qubits.now + length qubits.now) * shape.width ≤ length scratch.old) × (length x.old ≡ shape.qubits * shape.width) × (length z.old ≡ shape.qubits * shape.width) × TableFor (length qubits.now) table.now × (all_below shape.qubits qubits.now ≡ true) }
    ensures { (m : ℕ) (d : List ℕ) → Acts shape.width (line_rule shape.qubits m (Line.clifford qubits.now (table_of table.now))) x.old z.old d x.new z.new d }
{
    row_loops::save_listed(&mut *scratch, 0, x, shape.width, qubits);
    row_loops::save_listed(&mut *scratch, qubits.len(), z, shape.width, qubits);
    row_loops::clear_listed(x, shape.width, qubits);
    row_loops::clear_listed(z, shape.width, qubits);
    add_images(x, z, shape, qubits, table, scratch);
}

// ---- Permutations

// Adds saved row i to the row of the operand at place s_i.
fn add_to_places(rows: &mut [u64], shape: Shape, places: &[u64], qubits: &[u64], saved: &[u64])
    requires { (length rows.old ≡ shape.qubits * shape.width) × (all_below shape.qubits qubits.now ≡ true) × (is_permutation (length qubits.now) places.now ≡ true) × (length qubits.now * shape.width ≤ length saved.now) }
    ensures { PlacesAdded shape.width places.now qubits.now saved.now rows.old rows.new }
{
    let w = shape.width;
    for i in 0..places.len() {
        let place = places[i] as usize;
        let qubit = qubit_at(qubits, place);
        let q = qubit.0;
        row_loops::xor_words(rows, q * w, saved, i * w, w);
    }
}

// Permutes the rows of the operands in one matrix.
fn permute_rows(rows: &mut [u64], shape: Shape, places: &[u64], qubits: &[u64], saved: &mut [u64])
    requires { (length rows.old ≡ shape.qubits * shape.width) × (all_below shape.qubits qubits.now ≡ true) × (is_permutation (length qubits.now) places.now ≡ true) × (length qubits.now * shape.width ≤ length saved.old) }
    ensures { RowsPermuted shape.width places.now qubits.now rows.old rows.new }
{
    row_loops::save_listed(&mut *saved, 0, rows, shape.width, qubits);
    row_loops::clear_listed(rows, shape.width, qubits);
    add_to_places(rows, shape, places, qubits, saved);
}

// A permutation takes what stands at place i to place s_i. A row is saved for each operand.
pub fn apply_permutation(
    x: &mut [u64],
    z: &mut [u64],
    shape: Shape,
    places: &[u64],
    qubits: &[u64],
    scratch: &mut [u64],
)
    requires { (length qubits.now * shape.width ≤ length scratch.old) × (length x.old ≡ shape.qubits * shape.width) × (length z.old ≡ shape.qubits * shape.width) × (all_below shape.qubits qubits.now ≡ true) × (is_permutation (length qubits.now) places.now ≡ true) }
    ensures { (m : ℕ) (d : List ℕ) → Acts shape.width (line_rule shape.qubits m (Line.permute places.now qubits.now)) x.old z.old d x.new z.new d }
{
    permute_rows(x, shape, places, qubits, &mut *scratch);
    permute_rows(z, shape, places, qubits, scratch);
}
