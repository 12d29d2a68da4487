// The tests of each kind of noise line after 2 and 3.
ghost use Rattle.std.specs.Prelude.{◌≡◌, List, [], ◌∷◌, ℕ, ◌≤◌, ◌<◌, eqb};
ghost use Rattle.text.specs.Template.{Value, number_at, list_at_of};
ghost use Rattle.template.specs.Fields.{Held};
ghost use Rattle.job.specs.Float.{float, is_probability};
ghost use Rattle.job.specs.Grammar.{Written};
ghost use Rattle.job.specs.Refusals.{refusal_in};
ghost use Rattle.job.specs.Checks.{test, outcome_test, lowest, own_tests};
ghost use Rattle.reader.specs.declared.Form.TheVariants as form;
ghost use Rattle.reader.specs.Parsed.{Said};
ghost use Rattle.check_values.specs.Contexts.{context_of};
ghost use Rattle.check_lines.specs.Listed.{listed_tests};

use check_values::context::Context;
use check_values::floats::probability;
use check_values::lists::{below, short, slot_distinct};
use job::limits::MAX_ELEMENTS;
use job::refusals::Refusal;
use job_numbers::depolarizing_size;
use reader::slots::{
    CONDITION, CONDITION_END, DEPOLARIZED, DEPOLARIZED_END, ELEMENT_COUNT, LISTED_SIZE,
    PROBABILITY, SINGLE_END, SINGLE_X, SIZE,
};
use template::values::Values;

// 9 and 11, which every noise line has.
fn noise_number(c: Context, f: Values<'_>) -> Result<(), Refusal>
    ensures { (numbers lists : ℕ) (vs : List Value) → Held f.entry.words.now numbers lists vs → 0 < numbers → 1 < lists → refusal_in result ≡ lowest (outcome_test (context_of c) (list_at_of 1 vs) ∷ test 11 (is_probability (float (number_at 0 vs))) ∷ []) }
{
    if !below(f, CONDITION, CONDITION_END, c.recorded) {
        return Err(Refusal::NotRecorded);
    }
    if probability(f.number(PROBABILITY)).is_none() {
        return Err(Refusal::Probability);
    }
    Ok(())
}

// 21, which every noise line has: the number in `slot` is the line's size.
fn size_number(f: Values<'_>, slot: usize, size: u64) -> Result<(), Refusal>
    requires { slot < 4 }
    ensures { (numbers lists : ℕ) (vs : List Value) → Held f.entry.words.now numbers lists vs → slot < numbers → refusal_in result ≡ lowest (test 21 (eqb (number_at slot vs) size) ∷ []) }
{
    if f.number(slot) != size {
        return Err(Refusal::Size);
    }
    Ok(())
}

// 9, 11 and 21 of a noise line without element lines.
fn unlisted_number(c: Context, f: Values<'_>, size: u64) -> Result<(), Refusal>
    ensures { (lists : ℕ) (vs : List Value) → Held f.entry.words.now 3 lists vs → 1 < lists → refusal_in result ≡ lowest (outcome_test (context_of c) (list_at_of 1 vs) ∷ test 11 (is_probability (float (number_at 0 vs))) ∷ test 21 (eqb (number_at 2 vs) size) ∷ []) }
{
    noise_number(c, f)?;
    size_number(f, SIZE, size)
}

pub fn single_number(c: Context, f: Values<'_>) -> Result<(), Refusal>
    ensures { (vs : List Value) (w : Written) → Said form.Single f.entry.words.now vs w → refusal_in result ≡ lowest (own_tests (context_of c) w) }
{
    if !below(f, SINGLE_X, SINGLE_END, c.header.qubits) {
        return Err(Refusal::Qubit);
    }
    if !short(f, CONDITION, SINGLE_END) {
        return Err(Refusal::Operands);
    }
    // One element.
    unlisted_number(c, f, 1)
}

pub fn depolarizing_number(c: Context, f: Values<'_>) -> Result<(), Refusal>
    ensures { (vs : List Value) (w : Written) → Said form.Depolarizing f.entry.words.now vs w → refusal_in result ≡ lowest (own_tests (context_of c) w) }
{
    if !below(f, DEPOLARIZED, DEPOLARIZED_END, c.header.qubits) {
        return Err(Refusal::Qubit);
    }
    if !short(f, CONDITION, DEPOLARIZED_END) {
        return Err(Refusal::Operands);
    }
    if !slot_distinct(f, DEPOLARIZED) {
        return Err(Refusal::Operands);
    }
    unlisted_number(c, f, depolarizing_size(f.count(DEPOLARIZED)))
}

// d=3 and d=4.
pub fn listed_number(c: Context, f: Values<'_>) -> Result<(), Refusal>
    ensures { (vs : List Value) → Held f.entry.words.now 4 2 vs → refusal_in result ≡ lowest (listed_tests (context_of c) vs) }
{
    if !short(f, CONDITION, CONDITION_END) {
        return Err(Refusal::Operands);
    }
    noise_number(c, f)?;
    let element_count = f.number(ELEMENT_COUNT);
    if element_count == 0 {
        return Err(Refusal::Elements);
    }
    if MAX_ELEMENTS < element_count {
        return Err(Refusal::Elements);
    }
    size_number(f, LISTED_SIZE, element_count)
}
