// What each kind of line does, going back, to the observable, to the set of outcomes, and to the count.
//
// The observable is a Pauli on 256 qubits, whatever the job's number of qubits: a line's operands are below that, so that what is compared with them
// is the same (specs/Laws/Same.antt). A Pauli of a line is given by two lists: the qubits with an X part, and the qubits with a Z part.
ghost use Rattle.std.specs.Prelude.{◌≡◌, true, ◌+◌, ◌^◌, ◌<◌, ◌≤◌, length, get_or};
ghost use Rattle.pauli.specs.Bits.{Bits, ◌△◌, given, members, bit};
ghost use Rattle.pauli.specs.Pauli.{◌∗◌ as ◌times◌, when, anticommutes as Pauli·anticommutes, cleared};
ghost use Rattle.pauli.specs.Gate.{gate_of, conjugated_back};
ghost use Rattle.pauli.specs.Code.{by_gate, operand_count_of};
ghost use Rattle.pauli.specs.Fixed.{in_set, as_pauli};
ghost use Rattle.job.specs.Line.{pauli_of};
ghost use Rattle.job.specs.Checks.{all_below, distinct, is_permutation};
ghost use Rattle.job.specs.Clifford.{table_of, row_over};
ghost use Rattle.tables.specs.Rows.{TableFor, in_word};
ghost use Rattle.frames.specs.Forward.{exponentiate, controlled_pauli, placed, images_of};
ghost use Rattle.backward.specs.Walk.{clifford_back_of, permute_back_of};
ghost use Rattle.lines_back.specs.Packed.{Packed, in_words};

use pauli::{OutcomeId, Pauli, QubitId, qubit_at};

// ---- Gates

// The gate of a code. The last operand is the second of two; a gate on one qubit does not look at it.
pub fn unitary_back(b: Pauli, code: u64, qubits: &[u64]) -> Pauli
    requires { (code ≤ 15) × (length qubits.now ≡ operand_count_of (gate_of code)) × (all_below 256 qubits.now ≡ true) }
    ensures { as_pauli result ≡ by_gate conjugated_back (gate_of code) (get_or qubits.now 0 0) (get_or qubits.now 1 0) (as_pauli b) }
{
    let last = qubits.len() - 1;
    b.conjugate_back(code, qubit_at(qubits, 0), qubit_at(qubits, last))
}

// ---- Exponentials and controlled Paulis

// The product with p, if asked to.
// The condition is a parameter, here and in `with_bit`, so that one contract says both cases.
fn multiply_if(b: Pauli, on: bool, p: Pauli) -> Pauli
    ensures { as_pauli result ≡ (as_pauli b times when on (as_pauli p)) }
{
    if !on {
        return b;
    }
    b.multiply(p)
}

pub fn exponential_back(b: Pauli, x: &[u64], z: &[u64]) -> Pauli
    requires { (all_below 256 x.now ≡ true) × (all_below 256 z.now ≡ true) }
    ensures { as_pauli result ≡ exponentiate 256 (pauli_of record { x = x.entry.now; z = z.now }) (as_pauli b) }
{
    let p = Pauli::from_lists(x, z);
    multiply_if(b, b.anticommutes(p), p)
}

// Both masks are taken first.
pub fn controlled_back(b: Pauli, cx: &[u64], cz: &[u64], tx: &[u64], tz: &[u64]) -> Pauli
    requires { (all_below 256 cx.now ≡ true) × (all_below 256 cz.now ≡ true) × (all_below 256 tx.now ≡ true) × (all_below 256 tz.now ≡ true) }
    ensures { as_pauli result ≡ controlled_pauli 256 (pauli_of record { x = cx.now; z = cz.now }) (pauli_of record { x = tx.now; z = tz.now }) (as_pauli b) }
{
    let control = Pauli::from_lists(cx, cz);
    let target = Pauli::from_lists(tx, tz);
    let r = multiply_if(b, b.anticommutes(control), target);
    multiply_if(r, b.anticommutes(target), control)
}

// ---- Cliffords and permutations. What the observable has at the operands is taken into a word, a bit for each place, and what the bits change by is
// added.

// A word of i bits with another at place i.
fn with_bit(w: u64, i: usize, on: bool) -> u64
    requires { i < 64 }
    ensures { (f : Bits) → Packed i f w → on ≡ f i → Packed (i + 1) f result }
{
    if !on {
        return w;
    }
    w ^ (1u64 << i)
}

// The bits of a set at the operands.
fn parts_at(set: [u64; 4], qubits: &[u64]) -> u64
    requires { length qubits.now ≤ 31 }
    ensures { Packed (length qubits.now) (λ j. in_set set (get_or qubits.now j 0)) result }
{
    let mut w: u64 = 0;
    for (i, &q) in qubits.iter().enumerate() {
        w = with_bit(w, i, pauli::has_qubit(set, QubitId::from(q)));
    }
    w
}

// Adds the bits of x to the X parts on the operands, the bits of z to the Z parts.
fn add_parts(b: Pauli, qubits: &[u64], x: u64, z: u64) -> Pauli
    requires { (length qubits.now ≤ 31) × (all_below 256 qubits.now ≡ true) }
    ensures { (in_set result.x ≡ in_set b.x △ placed (bit x) qubits.now) × (in_set result.z ≡ in_set b.z △ placed (bit z) qubits.now) }
{
    let mut r = b;
    for (i, &q) in qubits.iter().enumerate() {
        r = r.add_at(QubitId::from(q), (x >> i) % 2 == 1, (z >> i) % 2 == 1);
    }
    r
}

// Whether a row of a table on k operands anticommutes with a Pauli whose X and Z parts at the operands are the bits of x and z.
fn row_anticommutes(x: u64, z: u64, row: u64, k: usize) -> bool
    requires { (k ≤ 8) × (x < 2 ^ k) × (z < 2 ^ k) }
    ensures { result ≡ Pauli·anticommutes k (in_words x z) (in_word k row) }
{
    let clashes = (x & (row >> k)) ^ (z & row);
    u64::count_ones(clashes) % 2 == 1
}

// The same for k rows of the table, from one on.
fn rows_anticommute(x: u64, z: u64, table: &[u64], k: usize, from: usize) -> u64
    requires { TableFor k table.now × (from ≤ k) × (x < 2 ^ k) × (z < 2 ^ k) }
    ensures { Packed k (λ i. Pauli·anticommutes k (in_words x z) (row_over k (table_of table.now) (from + i))) result }
{
    let mut w: u64 = 0;
    for i in 0..k {
        w = with_bit(
            w,
            i,
            row_anticommutes(x, z, tables::row(table, k, from + i), k),
        );
    }
    w
}

// The new X part at place i says whether the observable anticommutes with Z's image, row k + i, the new Z part with X's, row i.
pub fn clifford_back(b: Pauli, qubits: &[u64], table: &[u64]) -> Pauli
    requires { TableFor (length qubits.now) table.now × (all_below 256 qubits.now ≡ true) × (distinct qubits.now ≡ true) }
    ensures { as_pauli result ≡ clifford_back_of 256 qubits.now (images_of qubits.now (table_of table.now)) (as_pauli b) }
{
    let k = qubits.len();
    let bx = b.x;
    let bz = b.z;
    let x = parts_at(bx, qubits);
    let z = parts_at(bz, qubits);
    let new_x = rows_anticommute(x, z, table, k, k);
    let new_z = rows_anticommute(x, z, table, k, 0);
    add_parts(b, qubits, x ^ new_x, z ^ new_z)
}

// Bit i is the bit of w at place s_i.
fn fetch(w: u64, places: &[u64]) -> u64
    requires { (length places.now ≤ 31) × (all_below (length places.now) places.now ≡ true) }
    ensures { Packed (length places.now) (λ i. bit w (get_or places.now i 0)) result }
{
    let mut r: u64 = 0;
    for (i, &place) in places.iter().enumerate() {
        r = with_bit(r, i, (w >> place) % 2 == 1);
    }
    r
}

// Place i gets what is at place s_i.
pub fn permute_back(b: Pauli, places: &[u64], qubits: &[u64]) -> Pauli
    requires { (length qubits.now ≤ 31) × (all_below 256 qubits.now ≡ true) × (distinct qubits.now ≡ true) × (is_permutation (length qubits.now) places.now ≡ true) }
    ensures { as_pauli result ≡ permute_back_of places.now qubits.now (as_pauli b) }
{
    let bx = b.x;
    let bz = b.z;
    let x = parts_at(bx, qubits);
    let z = parts_at(bz, qubits);
    add_parts(b, qubits, x ^ fetch(x, places), z ^ fetch(z, places))
}

// ---- Resets

// Without its parts on the listed qubits.
pub fn reset_back(b: Pauli, qubits: &[u64]) -> Pauli
    requires { all_below 256 qubits.now ≡ true }
    ensures { as_pauli result ≡ cleared qubits.now (as_pauli b) }
{
    let mut r = b;
    for &q in qubits {
        r = r.clear_qubit(QubitId::from(q));
    }
    r
}

// ---- Measurements, conditionals and injections

// Multiplied by the observable of a measurement whose outcome is in the set.
pub fn measure_back(b: Pauli, set: &[u64], x: &[u64], z: &[u64], id: OutcomeId) -> Pauli
    requires { (all_below 256 x.now ≡ true) × (all_below 256 z.now ≡ true) }
    ensures { as_pauli result ≡ (as_pauli b times when (in_set set.now id.0) (pauli_of record { x = x.entry.now; z = z.now })) }
{
    if !pauli::has_outcome(set, id) {
        return b;
    }
    b.multiply(Pauli::from_lists(x, z))
}

// The list of a conditional is added to the set where the observable anticommutes with its Pauli.
pub fn conditional_back(set: &mut [u64], b: Pauli, x: &[u64], z: &[u64], ids: &[u64])
    requires { (length set.old ≡ 16) × (all_below 256 x.now ≡ true) × (all_below 256 z.now ≡ true) × (all_below 1024 ids.now ≡ true) }
    ensures { (length set.new ≡ 16) × (in_set set.new ≡ in_set set.old △ given (Pauli·anticommutes 256 (as_pauli b) (pauli_of record { x = x.entry.now; z = z.now })) (members ids.now)) }
{
    if !b.anticommutes(Pauli::from_lists(x, z)) {
        return;
    }
    pauli::add_outcomes(set, ids);
}

// Whether an injection anticommutes with the observable.
pub fn injection_counts(b: Pauli, x: &[u64], z: &[u64]) -> bool
    requires { (all_below 256 x.now ≡ true) × (all_below 256 z.now ≡ true) }
    ensures { result ≡ Pauli·anticommutes 256 (pauli_of record { x = x.entry.now; z = z.now }) (as_pauli b) }
{
    Pauli::from_lists(x, z).anticommutes(b)
}
