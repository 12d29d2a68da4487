// Tests of the header, of noise lines and of their element lines; and of each other kind of line, but lines that are a Pauli alone, the tests after
// 2 and 3.
#![tactic(auto)]

ghost use Rattle.std.specs.Prelude.{◌≡◌, ◌&&◌, List, [], ◌∷◌, ℕ, ◌+◌, ◌^◌, ◌≤◌, ◌<◌, ltb};
ghost use Rattle.std.proofs.Math.Option.{some};
ghost use Rattle.text.specs.Template.{Value, list_at_of};
ghost use Rattle.template.specs.Fields.{Held};
ghost use Rattle.job.specs.Grammar.{Written};
ghost use Rattle.job.specs.Refusals.{refusal_in};
ghost use Rattle.job.specs.Checks.{test, id_test, each_below_of, each_short, lowest, own_tests, distinct, next as Checks·next};
ghost use Rattle.reader.specs.declared.Form.TheVariants as form;
ghost use Rattle.reader.specs.Parsed.{form_of, Said};
ghost use Rattle.check_values.specs.Contexts.{context_of};
ghost use Rattle.check_values.specs.Slots.{lists_from};

pub mod editions;
pub mod elements;
pub mod header;
pub mod noise_lines;

use check_values::clifford::is_clifford;
use check_values::context::Context;
use check_values::lists::{below, overlap_is_odd, pauli_number, short, slot_distinct};
use job::refusals::Refusal;
use pauli::{OutcomeId, Shot};
use reader::Form;
use reader::slots::{
    FLIPPED, GATE, ID, IDS, IDS_END, OPERANDS, OPERANDS_END, PAULI_END, PERMUTED, PERMUTED_END,
    PLACES, PLACES_END, SHOT, TABLE, TARGET_END, TARGET_X, TARGET_Z, X, Z,
};
use tables::{MAX_CLIFFORD_QUBITS, table_words};
use template::values::Values;

// 4 and 5 of operands of no fixed number, on so many qubits.
pub fn operands_number(f: Values<'_>, qubits: u64) -> Result<(), Refusal>
    ensures { (numbers lists : ℕ) (vs : List Value) → Held f.entry.words.now numbers lists vs → 1 ≤ lists → refusal_in result ≡ lowest (test 4 (each_below_of qubits (lists_from 0 1 vs)) ∷ test 5 (distinct (list_at_of 0 vs) && each_short (lists_from 0 1 vs)) ∷ []) }
{
    if !below(f, OPERANDS, OPERANDS_END, qubits) {
        return Err(Refusal::Qubit);
    }
    if !short(f, OPERANDS, OPERANDS_END) {
        return Err(Refusal::Operands);
    }
    if !slot_distinct(f, OPERANDS) {
        return Err(Refusal::Operands);
    }
    Ok(())
}

pub fn unitary_number(c: Context, f: Values<'_>) -> Result<(), Refusal>
    ensures { (vs : List Value) (w : Written) → Said form.Unitary f.entry.words.now vs w → refusal_in result ≡ lowest (own_tests (context_of c) w) }
{
    if !below(f, OPERANDS, OPERANDS_END, c.header.qubits) {
        return Err(Refusal::Qubit);
    }
    // A count that fits is at most 2, so no list is too long here.
    if f.count(OPERANDS) != pauli::operand_count(f.number(GATE)) as u64 {
        return Err(Refusal::Operands);
    }
    if !slot_distinct(f, OPERANDS) {
        return Err(Refusal::Operands);
    }
    Ok(())
}

pub fn clifford_number(c: Context, f: Values<'_>) -> Result<(), Refusal>
    ensures { (vs : List Value) (w : Written) → Said form.Clifford f.entry.words.now vs w → refusal_in result ≡ lowest (own_tests (context_of c) w) }
{
    if !below(f, OPERANDS, OPERANDS_END, c.header.qubits) {
        return Err(Refusal::Qubit);
    }
    let k = f.count(OPERANDS);
    // A count that passes is at most 8, so no list is too long here.
    if MAX_CLIFFORD_QUBITS < k {
        return Err(Refusal::Operands);
    }
    if !slot_distinct(f, OPERANDS) {
        return Err(Refusal::Operands);
    }
    let n = table_words(k as usize);
    let words = f.kept(TABLE);
    if !is_clifford(&words[..n], k as usize) {
        return Err(Refusal::Clifford);
    }
    Ok(())
}

// Control and target commute where X parts on Z parts, plus the reverse, are even in number.
pub fn controlled_number(c: Context, f: Values<'_>) -> Result<(), Refusal>
    ensures { (vs : List Value) (w : Written) → Said form.Controlled f.entry.words.now vs w → refusal_in result ≡ lowest (own_tests (context_of c) w) }
{
    if !below(f, X, TARGET_END, c.header.qubits) {
        return Err(Refusal::Qubit);
    }
    if !short(f, X, TARGET_END) {
        return Err(Refusal::Operands);
    }
    let x_on_z = overlap_is_odd(f.list(X), f.list(TARGET_Z));
    let z_on_x = overlap_is_odd(f.list(Z), f.list(TARGET_X));
    if x_on_z != z_on_x {
        return Err(Refusal::Control);
    }
    Ok(())
}

pub fn permute_number(c: Context, f: Values<'_>) -> Result<(), Refusal>
    ensures { (vs : List Value) (w : Written) → Said form.Permute f.entry.words.now vs w → refusal_in result ≡ lowest (own_tests (context_of c) w) }
{
    if !below(f, PERMUTED, PERMUTED_END, c.header.qubits) {
        return Err(Refusal::Qubit);
    }
    if !short(f, PLACES, PERMUTED_END) {
        return Err(Refusal::Operands);
    }
    let k = f.count(PERMUTED);
    if !slot_distinct(f, PERMUTED) {
        return Err(Refusal::Operands);
    }
    if f.count(PLACES) != k {
        return Err(Refusal::Permutation);
    }
    if !below(f, PLACES, PLACES_END, k) {
        return Err(Refusal::Permutation);
    }
    if !slot_distinct(f, PLACES) {
        return Err(Refusal::Permutation);
    }
    Ok(())
}

// 8: an outcome that is not the next one, or not below the header's number of them.
fn id_number(c: Context, id: OutcomeId) -> Result<(), Refusal>
    ensures { refusal_in result ≡ lowest (id_test (context_of c) id.0 ∷ []) }
{
    let n = id.0 as u64;
    if n != c.recorded {
        return Err(Refusal::NextId);
    }
    if c.header.outcomes <= n {
        return Err(Refusal::NextId);
    }
    Ok(())
}

pub fn measure_number(c: Context, f: Values<'_>) -> Result<(), Refusal>
    ensures { (vs : List Value) (w : Written) → Said form.Measure f.entry.words.now vs w → refusal_in result ≡ lowest (own_tests (context_of c) w) }
{
    pauli_number(f, X, PAULI_END, c.header.qubits)?;
    id_number(c, OutcomeId(f.number(ID) as usize))
}

pub fn allocate_number(c: Context, f: Values<'_>) -> Result<(), Refusal>
    ensures { (vs : List Value) (w : Written) → Said form.Allocate f.entry.words.now vs w → refusal_in result ≡ lowest (own_tests (context_of c) w) }
{
    id_number(c, OutcomeId(f.number(ID) as usize))
}

pub fn conditional_number(c: Context, f: Values<'_>) -> Result<(), Refusal>
    ensures { (vs : List Value) (w : Written) → Said form.Conditional f.entry.words.now vs w → refusal_in result ≡ lowest (own_tests (context_of c) w) }
{
    if !below(f, X, PAULI_END, c.header.qubits) {
        return Err(Refusal::Qubit);
    }
    if !short(f, X, IDS_END) {
        return Err(Refusal::Operands);
    }
    if !below(f, IDS, IDS_END, c.recorded) {
        return Err(Refusal::NotRecorded);
    }
    Ok(())
}

// Whether an outcome is recorded before the line.
fn is_recorded(c: Context, id: OutcomeId) -> bool
    ensures { result ≡ ltb id.0 c.recorded }
{
    (id.0 as u64) < c.recorded
}

// Whether the job has a shot.
fn has_shot(c: Context, shot: Shot) -> bool
    ensures { result ≡ ltb shot.0 c.header.shots }
{
    (shot.0 as u64) < c.header.shots
}

pub fn inject_number(c: Context, f: Values<'_>) -> Result<(), Refusal>
    ensures { (vs : List Value) (w : Written) → Said form.Inject f.entry.words.now vs w → refusal_in result ≡ lowest (own_tests (context_of c) w) }
{
    pauli_number(f, X, PAULI_END, c.header.qubits)?;
    if !has_shot(c, Shot(f.number(SHOT) as usize)) {
        return Err(Refusal::Shot);
    }
    Ok(())
}

pub fn flip_number(c: Context, f: Values<'_>) -> Result<(), Refusal>
    ensures { (vs : List Value) (w : Written) → Said form.Flip f.entry.words.now vs w → refusal_in result ≡ lowest (own_tests (context_of c) w) }
{
    if !is_recorded(c, OutcomeId(f.number(FLIPPED) as usize)) {
        return Err(Refusal::NotRecorded);
    }
    if !has_shot(c, Shot(f.number(SHOT) as usize)) {
        return Err(Refusal::Shot);
    }
    Ok(())
}

// How many outcomes are recorded after the line.
pub fn recorded_after(c: Context, form: Form) -> u64
    requires { c.recorded + 1 < 2 ^ 64 }
    ensures { (vs : List Value) (w : Written) → (form_of form).says vs ≡ some w → result ≡ (Checks·next (context_of c) w).recorded }
{
    match form {
        Form::Header | Form::EditionHeader => 0,
        Form::Measure | Form::Allocate => c.recorded + 1,
        _ => c.recorded,
    }
}
