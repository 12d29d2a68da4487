// The lists among the values of a line (crate template).
ghost use Rattle.std.specs.Prelude.{◌≡◌, true, List, [], ◌∷◌, ℕ, ◌-◌, ◌≤◌, ◌<◌, set};
ghost use Rattle.pauli.specs.Bits.{sum_over, members as among};
ghost use Rattle.text.specs.List.{is_rising_of};
ghost use Rattle.text.specs.Template.{Value, list_at_of};
ghost use Rattle.template.specs.Values.{AllKept};
ghost use Rattle.template.specs.Fields.{Held};
ghost use Rattle.job.specs.Refusals.{refusal_in};
ghost use Rattle.job.specs.Checks.{test, all_below, each_below_of, each_short, lowest, distinct as Checks·distinct};
ghost use Rattle.check_values.specs.Slots.{lists_from};
ghost use Rattle.check_values.specs.Marks.{Unmarked, MarksOf};

use job::limits::{MAX_MEMBERS, MAX_QUBITS};
use job::refusals::Refusal;
use pauli::QubitId;
use template::values::Values;

// Whether every member of the list in a slot is below n.
fn slot_below(f: Values<'_>, slot: usize, n: u64) -> bool
    requires { slot < 4 }
    ensures { (numbers lists : ℕ) (vs : List Value) → Held f.entry.words.now numbers lists vs → slot < lists → result ≡ all_below n (list_at_of slot vs) }
{
    f.count(slot) == 0 || f.largest(slot) < n
}

// Whether every member of the lists from slot `first` up to slot `end` is below n.
pub fn below(f: Values<'_>, first: usize, end: usize, n: u64) -> bool
    requires { end ≤ 4 }
    ensures { (numbers lists : ℕ) (vs : List Value) → Held f.entry.words.now numbers lists vs → end ≤ lists → result ≡ each_below_of n (lists_from first (end - first) vs) }
{
    for i in first..end {
        if !slot_below(f, i, n) {
            return false;
        }
    }
    true
}

// Whether the lists from slot `first` up to slot `end` hold at most 31 each.
pub fn short(f: Values<'_>, first: usize, end: usize) -> bool
    requires { end ≤ 4 }
    ensures by_index { (numbers lists : ℕ) (vs : List Value) → Held f.entry.words.now numbers lists vs → end ≤ lists → result ≡ each_short (lists_from first (end - first) vs) }
    ensures all_kept { result ≡ true → (i : ℕ) → first ≤ i → i < end → AllKept f.entry.words.now i }
{
    for i in first..end {
        if MAX_MEMBERS < f.count(i) {
            return false;
        }
    }
    true
}

// Whether all members are below n.
pub fn all_below(members: &[u64], n: u64) -> bool
    ensures { result ≡ all_below n members.now }
{
    members.iter().all(|&m| m < n)
}

// Whether n is among the members.
pub fn contains(members: &[u64], n: u64) -> bool
    ensures { result ≡ among members.now n }
{
    // A for: `contains` of slices looks at four members in a turn, and so takes an eighth longer on a list of 31.
    for &m in members {
        if m == n {
            return true;
        }
    }
    false
}

// Whether no member stands twice.
pub fn distinct(members: &[u64]) -> bool
    ensures { result ≡ Checks·distinct members.now }
{
    for (i, &n) in members.iter().enumerate() {
        if contains(&members[i + 1..], n) {
            return false;
        }
    }
    true
}

// Whether a list of at most 31 in a slot has no member twice.
pub fn slot_distinct(f: Values<'_>, slot: usize) -> bool
    requires { (slot < 4) × AllKept f.words.now slot }
    ensures { (numbers lists : ℕ) (vs : List Value) → Held f.entry.words.now numbers lists vs → slot < lists → result ≡ Checks·distinct (list_at_of slot vs) }
{
    distinct(f.list(slot))
}

// Marks a qubit, if it has a mark.
fn mark(marks: &mut [bool], qubit: QubitId)
    ensures { marks.new ≡ set marks.old qubit.0 true }
{
    let n = qubit.0;
    if n < marks.len() {
        marks[n] = true;
    }
}

// Marks the qubits of a list.
fn mark_all(marks: &mut [bool], members: &[u64])
    requires { Unmarked marks.old }
    ensures { MarksOf marks.new members.now }
{
    for &q in members {
        mark(marks, QubitId::from(q));
    }
}

// Whether a qubit is among the members, by its mark; one that has none is looked for.
fn is_marked(marks: &[bool], members: &[u64], qubit: QubitId) -> bool
    requires { MarksOf marks.now members.now }
    ensures { result ≡ among members.now qubit.0 }
{
    let n = qubit.0;
    if n < marks.len() {
        return marks[n];
    }
    contains(members, n as u64)
}

// Whether two rising lists have an odd number of members in common. Every qubit of a job has a mark, so that no member is looked for and no turn
// waits for the one before it.
pub fn overlap_is_odd(a: &[u64], b: &[u64]) -> bool
    ensures { is_rising_of a.now ≡ true → is_rising_of b.now ≡ true → result ≡ sum_over a.now (among b.now) }
{
    let mut marks = [false; MAX_QUBITS as usize];
    mark_all(&mut marks, b);
    let mut odd = false;
    for &q in a {
        odd = odd != is_marked(&marks, b, QubitId::from(q));
    }
    odd
}

// Tests 4 and 5 of Paulis on so many qubits: of the lists from slot `first` up to slot `end`.
pub fn pauli_number(f: Values<'_>, first: usize, end: usize, qubits: u64) -> Result<(), Refusal>
    requires { end ≤ 4 }
    ensures { (numbers lists : ℕ) (vs : List Value) → Held f.entry.words.now numbers lists vs → end ≤ lists → refusal_in result ≡ lowest (test 4 (each_below_of qubits (lists_from first (end - first) vs)) ∷ test 5 (each_short (lists_from first (end - first) vs)) ∷ []) }
{
    if !below(f, first, end, qubits) {
        return Err(Refusal::Qubit);
    }
    if !short(f, first, end) {
        return Err(Refusal::Operands);
    }
    Ok(())
}
