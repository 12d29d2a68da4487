// Lines going back: each kind of line, as its values lie in lent words (crate template), on the observable, the set of outcomes and the count.
#![tactic(auto)]

ghost use Rattle.std.specs.Prelude.{◌≡◌, Bool, false, ℕ, ◌+◌, ◌^◌, ◌<◌, length};
ghost use Rattle.pauli.specs.Bits.{Bits};
ghost use Rattle.pauli.specs.Fixed.{in_set};
ghost use Rattle.pauli.specs.declared.Pauli.{Pauli as PauliWords};
ghost use Rattle.reader.specs.declared.Form.TheVariants as Forms;
ghost use Rattle.backward.specs.Walk.{one_more_of};
ghost use Rattle.lines_back.specs.Back.{HeldLine, Back, Readable, LineBack};

mod carry;

use pauli::{OutcomeId, Pauli, Shot};
use reader::Form;
use reader::slots::{
    FLIPPED, GATE, ID, IDS, OPERANDS, PERMUTED, PLACES, SHOT, TABLE, TARGET_X, TARGET_Z, X, Z,
};
use template::values::Values;

// ---- Lines that change the observable alone

// Gate lines come here from the table of single faults; the walk takes them as they stand on their lines (`walker::gates_back`).
pub fn unitary(values: Values<'_>, b: Pauli) -> Pauli
    requires { HeldLine Forms.Unitary values.words.now }
    ensures { (shot : ℕ) (set : Bits) → Back Forms.Unitary values.entry.words.now shot b set result set false }
{
    carry::unitary_back(b, values.number(GATE), values.list(OPERANDS))
}

fn clifford(values: Values<'_>, b: Pauli) -> Pauli
    requires { HeldLine Forms.Clifford values.words.now }
    ensures { (shot : ℕ) (set : Bits) → Back Forms.Clifford values.entry.words.now shot b set result set false }
{
    carry::clifford_back(b, values.list(OPERANDS), values.list(TABLE))
}

fn exponential(values: Values<'_>, b: Pauli) -> Pauli
    requires { HeldLine Forms.Exponential values.words.now }
    ensures { (shot : ℕ) (set : Bits) → Back Forms.Exponential values.entry.words.now shot b set result set false }
{
    carry::exponential_back(b, values.list(X), values.list(Z))
}

fn controlled(values: Values<'_>, b: Pauli) -> Pauli
    requires { HeldLine Forms.Controlled values.words.now }
    ensures { (shot : ℕ) (set : Bits) → Back Forms.Controlled values.entry.words.now shot b set result set false }
{
    carry::controlled_back(
        b,
        values.list(X),
        values.list(Z),
        values.list(TARGET_X),
        values.list(TARGET_Z),
    )
}

fn permute(values: Values<'_>, b: Pauli) -> Pauli
    requires { HeldLine Forms.Permute values.words.now }
    ensures { (shot : ℕ) (set : Bits) → Back Forms.Permute values.entry.words.now shot b set result set false }
{
    carry::permute_back(b, values.list(PLACES), values.list(PERMUTED))
}

fn reset(values: Values<'_>, b: Pauli) -> Pauli
    requires { HeldLine Forms.Reset values.words.now }
    ensures { (shot : ℕ) (set : Bits) → Back Forms.Reset values.entry.words.now shot b set result set false }
{
    carry::reset_back(b, values.list(OPERANDS))
}

fn measure(values: Values<'_>, b: Pauli, set: &[u64]) -> Pauli
    requires { HeldLine Forms.Measure values.words.now }
    ensures { (shot : ℕ) → Back Forms.Measure values.entry.words.now shot b (in_set set.now) result (in_set set.now) false }
{
    let id = OutcomeId(values.number(ID) as usize);
    carry::measure_back(b, set, values.list(X), values.list(Z), id)
}

// ---- Conditionals, which change the set alone

fn conditional(values: Values<'_>, b: Pauli, set: &mut [u64])
    requires { HeldLine Forms.Conditional values.words.now × (length set.old ≡ 16) }
    ensures { (length set.new ≡ 16) × ((shot : ℕ) → Back Forms.Conditional values.entry.words.now shot b (in_set set.old) b (in_set set.new) false) }
{
    carry::conditional_back(set, b, values.list(X), values.list(Z), values.list(IDS));
}

// ---- Lines that are counted, or not

// An injection in the shot, where it anticommutes with the observable.
fn inject(values: Values<'_>, b: Pauli, shot: Shot) -> bool
    requires { HeldLine Forms.Inject values.words.now }
    ensures { (set : Bits) → Back Forms.Inject values.entry.words.now shot.0 b set b set result }
{
    if values.number(SHOT) as usize != shot.0 {
        return false;
    }
    carry::injection_counts(b, values.list(X), values.list(Z))
}

// A flip in the shot, where its outcome is in the set.
fn flip(values: Values<'_>, set: &[u64], shot: Shot) -> bool
    requires { HeldLine Forms.Flip values.words.now }
    ensures { (b : PauliWords) → Back Forms.Flip values.entry.words.now shot.0 b (in_set set.now) b (in_set set.now) result }
{
    if values.number(SHOT) as usize != shot.0 {
        return false;
    }
    pauli::has_outcome(set, OutcomeId(values.number(FLIPPED) as usize))
}

// ---- Any line

// The observable that is carried back, the count, and the line of the first noise so far. The set of outcomes is lent.
#[derive(Clone, Copy)]
pub struct Walk {
    pub observable: Pauli,
    pub count: u64,
    pub noise: Option<u64>,
}

impl Walk {
    pub fn with_observable(self, observable: Pauli) -> Walk
        ensures { result ≡ record { observable = observable; count = self.count; noise = self.noise } }
    {
        Walk { observable, ..self }
    }

    // With one more in the count, if it is counted.
    fn counted(self, counted: bool) -> Walk
        requires { self.count + 1 < 2 ^ 64 }
        ensures { result ≡ record { observable = self.observable; count = one_more_of counted self.count; noise = self.noise } }
    {
        Walk {
            count: self.count + counted as u64,
            ..self
        }
    }
}

// One line back, of number k. Noise is remembered by its line; lines of the other forms that are not named do nothing.
pub fn line_back(
    w: Walk,
    form: Form,
    values: Values<'_>,
    set: &mut [u64],
    shot: Shot,
    k: u64,
) -> Walk
    requires { Readable form values.words.now × (length set.old ≡ 16) × (w.count + 1 < 2 ^ 64) }
    ensures { LineBack form values.entry.words.now shot.0 k w result set.old set.new }
{
    let b = w.observable;
    match form {
        Form::Unitary => w.with_observable(unitary(values, b)),
        Form::Clifford => w.with_observable(clifford(values, b)),
        Form::Exponential => w.with_observable(exponential(values, b)),
        Form::Controlled => w.with_observable(controlled(values, b)),
        Form::Permute => w.with_observable(permute(values, b)),
        Form::Measure => w.with_observable(measure(values, b, set)),
        Form::Conditional => {
            conditional(values, b, set);
            w
        }
        Form::Reset => w.with_observable(reset(values, b)),
        Form::Inject => w.counted(inject(values, b, shot)),
        Form::Flip => w.counted(flip(values, set, shot)),
        Form::Single | Form::Depolarizing | Form::Uniform | Form::Weighted => Walk {
            noise: Some(k),
            ..w
        },
        _ => w,
    }
}
