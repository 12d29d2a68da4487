// The rows of a noise line, by what is carried back of each group. Going back, element lines are met before their noise line: their characters are
// kept until it comes.
ghost use Rattle.std.specs.Prelude.{◌≡◌, true, List, [], ◌∷◌, ℕ, ◌+◌, ◌*◌, ◌≤◌, ◌<◌, length};
ghost use Rattle.std.proofs.Math.Option.{some};
ghost use Rattle.pauli.specs.Fixed.{as_pauli};
ghost use Rattle.text.specs.Template.{Value};
ghost use Rattle.job.specs.Line.{pauli_of, WeightedPauli};
ghost use Rattle.job.specs.Checks.{all_below};
ghost use Rattle.job.specs.Grammar.{Written};
ghost use Rattle.reader.specs.Parsed.{form_of, Said};
ghost use Rattle.draws.specs.Draws.{depolarizing_element_of};
ghost use Rattle.single_faults.specs.Table.{row_text};
ghost use Rattle.single_faults.specs.Carried.{rows_by};
ghost use Rattle.fault_table.specs.Lent.{all_carried};
ghost use Rattle.fault_table.specs.Rows.{row_bytes, rows_bytes, RowsBefore};
ghost use Rattle.fault_table.specs.Said.{held_pauli, PauliHeld, wide_said, is_element_of, marks_by, marks_of, KeptFor, elements_with, ElementKnown, rows_said, RowsReady};

use crate::fault_rows::{KEPT_BYTES, KEPT_ELEMENTS, put_kept_rows, put_row};
use crate::groups_back::put_marks;
use correlations::size;
use noise_text::lists::select;
use pauli::Pauli;
use reader::Form;
use reader::slots::{DEPOLARIZED, SINGLE_X, X};
use template::values::{KEPT, Values};

// The most qubits of d=2 that a table takes.
const MAX_DEPOLARIZED: u64 = 4;

// 24: d=2 over more qubits.
pub fn is_wide(form: Form, f: Values<'_>) -> bool
    ensures { (vs : List Value) (w : Written) → Said form f.entry.words.now vs w → result ≡ wide_said w }
{
    match form {
        Form::Depolarizing => MAX_DEPOLARIZED < f.count(DEPOLARIZED),
        _ => false,
    }
}

// The Pauli that two lists of a line make, the one in slot `first` and the next.
fn pauli_at(f: Values<'_>, first: usize) -> Pauli
    requires { PauliHeld f.words.now first }
    ensures { as_pauli result ≡ pauli_of (held_pauli f.entry.words.now first) }
{
    Pauli::from_lists(f.list(first), f.list(first + 1))
}

// ---- Element lines

fn is_element(form: Form) -> bool
    ensures { (vs : List Value) (w : Written) → (form_of form).says vs ≡ some w → result ≡ is_element_of w }
{
    matches!(form, Form::Element | Form::WeightedElement)
}

// Keeps the characters of an element line, in front of those of the n elements behind it. Other lines change nothing.
pub fn keep_marks(
    kept: &mut [u8],
    n: usize,
    groups: usize,
    form: Form,
    f: Values<'_>,
    state: &[u64],
)
    requires { ElementKnown form f.words.now × (groups ≤ 16) × (length state.now ≡ groups * 24) × (length kept.old ≡ 1024) }
    ensures { (q : ElementKnown form f.entry.words.now) (es : List WeightedPauli) → n ≡ length es → KeptFor groups (all_carried groups state.now) kept.old es → KeptFor groups (all_carried groups state.now) kept.new (elements_with q.written es) }
{
    if !is_element(form) {
        return;
    }
    if KEPT_ELEMENTS <= n {
        return;
    }
    let p = pauli_at(f, X);
    let a = (KEPT_ELEMENTS - 1 - n) * KEPT_BYTES;
    let end = a + groups;
    put_marks(&mut kept[a..end], p, state);
}

// ---- Noise lines

// The row of an element, by its Pauli.
fn put_element_row(
    out: &mut [u8],
    place: usize,
    line: u64,
    e: u64,
    p: Pauli,
    state: &[u64],
    groups: usize,
) -> usize
    requires { (groups ≤ 16) × (length state.now ≡ groups * 24) × (place ≤ length out.old) × (row_bytes groups line e ≤ place) }
    ensures { RowsBefore place result (row_text line e (marks_by (all_carried groups state.now) (as_pauli p)) ∷ []) out.old out.new }
{
    let mut marks = [0u8; KEPT_BYTES];
    put_marks(&mut marks[..groups], p, state);
    put_row(out, place, line, e, &marks[..groups])
}

// An element of a depolarizing distribution.
fn depolarizing_element(qubits: &[u64], e: u64) -> Pauli
    requires { (length qubits.now ≤ 31) × (all_below 256 qubits.now ≡ true) × (e < 255) }
    ensures { as_pauli result ≡ pauli_of (depolarizing_element_of qubits.now e) }
{
    let v = e + 1;
    let mut x = [0u64; KEPT];
    let mut z = [0u64; KEPT];
    let nx = select(&mut x, qubits, v);
    let nz = select(&mut z, qubits, v / 2);
    Pauli::from_lists(&x[..nx], &z[..nz])
}

// The rows of a depolarizing distribution.
fn put_depolarizing_rows(
    out: &mut [u8],
    place: usize,
    line: u64,
    qubits: &[u64],
    n: u64,
    state: &[u64],
    groups: usize,
) -> usize
    requires { (groups ≤ 16) × (length state.now ≡ groups * 24) × (place ≤ length out.old) × (rows_bytes groups line n 0 ≤ place) × (n ≤ 255) × (length qubits.now ≤ 31) × (all_below 256 qubits.now ≡ true) }
    ensures { RowsBefore place result (rows_by line (λ (e : ℕ). marks_of (all_carried groups state.now) (depolarizing_element_of qubits.now e)) n 0) out.old out.new }
{
    let mut begin = place;
    for e in (0..n).rev() {
        let p = depolarizing_element(qubits, e);
        begin = put_element_row(&mut *out, begin, line, e, p, state, groups);
    }
    begin
}

// The rows of a noise line, before a place; and where they begin. Other lines have none.
pub fn put_rows(
    out: &mut [u8],
    place: usize,
    line: u64,
    form: Form,
    f: Values<'_>,
    state: &[u64],
    groups: usize,
    kept: &[u8],
) -> usize
    requires { RowsReady form f.words.now state.now groups kept.now line place out.old }
    ensures { (q : RowsReady form f.entry.words.now state.now groups kept.now line place out.old) → RowsBefore place result (rows_said line (all_carried groups state.now) q.written q.elements) out.old out.new }
{
    match form {
        Form::Single => {
            let p = pauli_at(f, SINGLE_X);
            put_element_row(out, place, line, 0, p, state, groups)
        }
        Form::Depolarizing => {
            let n = size(form, f);
            put_depolarizing_rows(out, place, line, f.list(DEPOLARIZED), n, state, groups)
        }
        Form::Uniform | Form::Weighted => {
            let n = size(form, f);
            put_kept_rows(out, place, line, kept, n as usize, groups)
        }
        _ => place,
    }
}
