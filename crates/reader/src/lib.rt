// What a line says: its form. Its values go into lent words (crate template).
#![tactic(auto)]

ghost use Rattle.std.specs.Prelude.{◌≡◌, true, ◌≤◌, ◌&&◌, [], ◌∷◌, ◌++◌, eqb, length, get_or, IfSome};
ghost use Rattle.text.specs.Template.{is_letter_of};
ghost use Rattle.job.specs.Grammar.{is_one};
ghost use Rattle.template.specs.Values.{Whole};
ghost use Rattle.template.specs.Fields.{is_plain, ReadOn, ReadNext};
ghost use Rattle.reader.specs.declared.Form.TheVariants as Forms;
ghost use Rattle.reader.specs.Parsed.{Parsed};
ghost use Rattle.reader.specs.Tried.{Tried, FormBy, NoiseBegun, found, only, form_if, noise_forms, header_forms, pauli_part, noise_begin_of};

pub mod slots;

use crate::slots::{CONDITION, GATE, OPERANDS, PARITY, TABLE};
use pauli::LAST_GATE;
use tables::words_fit;
use template::values::Values;
use template::{Progress, far_value, literal, read_all, start, value};

// The forms of lines, in the order of document 01, then those of the second edition; `Unread` where a line has none.
// Unread stands among them, not outside in an Option: the tests answer for every line by one match over its form.
#[derive(Clone, Copy)]
pub enum Form {
    Unread,
    Header,
    Unitary,
    Clifford,
    Pauli,
    Exponential,
    Controlled,
    Permute,
    Measure,
    Allocate,
    Conditional,
    Reset,
    Inject,
    Flip,
    Single,
    Depolarizing,
    Uniform,
    Weighted,
    Element,
    WeightedElement,
    EditionHeader,
    Barrier,
}

// The form of a line that has a template's form.
fn form_by(line: &[u8], template: &[u8], form: Form, fields: &mut [u64]) -> Option<Form>
    requires { Whole fields.old }
    ensures { FormBy line.now template.now form result fields.new }
{
    if read_all(line, template, fields) {
        return Some(form);
    }
    None
}

// The form of a line that was read to its end.
fn ended(line: &[u8], p: Progress, form: Form) -> Option<Form>
    ensures { result ≡ form_if (eqb p.at (length line.now)) form }
{
    if p.at == line.len() {
        return Some(form);
    }
    None
}

// ---- A line by the parts of its template. Each answers `None` where the line has no such part.

// A line read on by a field: bytes that stand for themselves, and a letter for its value. It is part of its callers, so that bytes which are written
// out there are compared without a loop.
#[inline(always)]
fn field(line: &[u8], p: Progress, text: &[u8], letter: u8, fields: &mut [u64]) -> Option<Progress>
    requires { (p.at ≤ length line.now) × (is_plain text.now ≡ true) × (is_letter_of letter ≡ true) × Whole fields.old }
    ensures read { ReadNext line.now (text.now ++ letter ∷ []) p result fields.old fields.new }
    ensures at_in_bounds { IfSome result (λ q. q.at ≤ length line.now) }
{
    let named = literal(line, p, text)?;
    value(line, named, letter, fields)
}

// The same for a value that is likely long.
#[inline(always)]
fn far_field(
    line: &[u8],
    p: Progress,
    text: &[u8],
    letter: u8,
    fields: &mut [u64],
) -> Option<Progress>
    requires { (p.at ≤ length line.now) × (is_plain text.now ≡ true) × (is_letter_of letter ≡ true) × Whole fields.old }
    ensures read { ReadNext line.now (text.now ++ letter ∷ []) p result fields.old fields.new }
    ensures at_in_bounds { IfSome result (λ q. q.at ≤ length line.now) }
{
    let named = literal(line, p, text)?;
    far_value(line, named, letter, fields)
}

// Below, a name such as `x` or `size` is how far a line was read with that field; its value is then in the lent words.

// A line read on by the two lists of a Pauli.
fn pauli_lists(line: &[u8], p: Progress, fields: &mut [u64]) -> Option<Progress>
    requires { (p.at ≤ length line.now) × Whole fields.old }
    ensures read { ReadNext line.now pauli_part p result fields.old fields.new }
    ensures at_in_bounds { IfSome result (λ q. q.at ≤ length line.now) }
{
    let x = field(line, p, b"x=", b'L', &mut *fields)?;
    field(line, x, b" z=", b'L', fields)
}

// ---- One form each

// A code above the last is no gate's.
fn unitary(line: &[u8], fields: &mut [u64]) -> Option<Form>
    requires { Whole fields.old }
    ensures { Tried (only Forms.Unitary) line.now (found result) fields.new }
{
    let g = field(line, start(), b"op=u g=", b'N', &mut *fields)?;
    let q = field(line, g, b" q=", b'Q', &mut *fields)?;
    let form = ended(line, q, Form::Unitary)?;
    let values = Values { words: &*fields };
    if LAST_GATE < values.number(GATE) {
        return None;
    }
    Some(form)
}

fn single(line: &[u8], begun: Progress, fields: &mut [u64]) -> Option<Form>
    requires { NoiseBegun line.now begun fields.old × Whole fields.old }
    ensures { Tried (only Forms.Single) line.now (found result) fields.new }
{
    let head = literal(line, begun, b"1 ")?;
    let pauli = pauli_lists(line, head, &mut *fields)?;
    let size = field(line, pauli, b" size=", b'N', fields)?;
    ended(line, size, Form::Single)
}

fn depolarizing(line: &[u8], begun: Progress, fields: &mut [u64]) -> Option<Form>
    requires { NoiseBegun line.now begun fields.old × Whole fields.old }
    ensures { Tried (only Forms.Depolarizing) line.now (found result) fields.new }
{
    let q = field(line, begun, b"2 q=", b'Q', &mut *fields)?;
    let size = field(line, q, b" size=", b'N', fields)?;
    ended(line, size, Form::Depolarizing)
}

fn uniform(line: &[u8], begun: Progress, fields: &mut [u64]) -> Option<Form>
    requires { NoiseBegun line.now begun fields.old × Whole fields.old }
    ensures { Tried (only Forms.Uniform) line.now (found result) fields.new }
{
    let n = field(line, begun, b"3 n=", b'N', &mut *fields)?;
    let size = field(line, n, b" size=", b'N', fields)?;
    ended(line, size, Form::Uniform)
}

fn weighted(line: &[u8], begun: Progress, fields: &mut [u64]) -> Option<Form>
    requires { NoiseBegun line.now begun fields.old × Whole fields.old }
    ensures { Tried (only Forms.Weighted) line.now (found result) fields.new }
{
    let n = field(line, begun, b"4 n=", b'N', &mut *fields)?;
    let size = field(line, n, b" size=", b'N', fields)?;
    ended(line, size, Form::Weighted)
}

// The last fields of a noise line, by its digit of d.
fn noise_kind(line: &[u8], digit: u8, begun: Progress, fields: &mut [u64]) -> Option<Form>
    requires { NoiseBegun line.now begun fields.old × (digit ≡ get_or line.now begun.at 0) × Whole fields.old }
    ensures { Tried noise_forms line.now (found result) fields.new }
{
    match digit {
        b'1' => single(line, begun, fields),
        b'2' => depolarizing(line, begun, fields),
        b'3' => uniform(line, begun, fields),
        b'4' => weighted(line, begun, fields),
        _ => None,
    }
}

// Whether there is a parity of 1 without a condition, which no noise line has.
fn parity_alone(count: u64, parity: u64) -> bool
    ensures { result ≡ (eqb count 0 && is_one parity) }
{
    count == 0 && parity == 1
}

// What all noise lines begin with.
fn noise_begin(line: &[u8], fields: &mut [u64]) -> Option<Progress>
    requires { Whole fields.old }
    ensures { ReadOn line.now noise_begin_of 0 0 0 result fields.old fields.new }
{
    let p = field(line, start(), b"op=n p=", b'H', &mut *fields)?;
    let corr = field(line, p, b" corr=", b'C', &mut *fields)?;
    let cond = field(line, corr, b" cond=", b'L', &mut *fields)?;
    let parity = field(line, cond, b" parity=", b'B', fields)?;
    literal(line, parity, b" d=")
}

// A noise line: what all of them begin with, and then by its digit of d.
fn noise(line: &[u8], fields: &mut [u64]) -> Option<Form>
    requires { Whole fields.old }
    ensures { Tried noise_forms line.now (found result) fields.new }
{
    let begun = noise_begin(line, &mut *fields)?;
    if line.len() <= begun.at {
        return None;
    }
    let values = Values { words: &*fields };
    if parity_alone(values.count(CONDITION), values.number(PARITY)) {
        return None;
    }
    noise_kind(line, line[begun.at], begun, fields)
}

fn edition_header(line: &[u8], fields: &mut [u64]) -> Option<Form>
    requires { Whole fields.old }
    ensures { Tried (only Forms.EditionHeader) line.now (found result) fields.new }
{
    form_by(
        line,
        b"op=job edition=N qubits=N outcomes=N shots=N",
        Form::EditionHeader,
        fields,
    )
}

// A header, without its edition or with it.
fn header(line: &[u8], fields: &mut [u64]) -> Option<Form>
    requires { Whole fields.old }
    ensures { Tried header_forms line.now (found result) fields.new }
{
    if read_all(line, b"op=job qubits=N outcomes=N shots=N", &mut *fields) {
        return Some(Form::Header);
    }
    edition_header(line, fields)
}

// A table of a wrong number of words is none.
fn clifford(line: &[u8], fields: &mut [u64]) -> Option<Form>
    requires { Whole fields.old }
    ensures { Tried (only Forms.Clifford) line.now (found result) fields.new }
{
    let q = field(line, start(), b"op=c q=", b'Q', &mut *fields)?;
    let t = field(line, q, b" t=", b'T', &mut *fields)?;
    let form = ended(line, t, Form::Clifford)?;
    let values = Values { words: &*fields };
    if !words_fit(values.count(OPERANDS), values.count(TABLE)) {
        return None;
    }
    Some(form)
}

fn pauli(line: &[u8], fields: &mut [u64]) -> Option<Form>
    requires { Whole fields.old }
    ensures { Tried (only Forms.Pauli) line.now (found result) fields.new }
{
    let head = literal(line, start(), b"op=p ")?;
    let pauli = pauli_lists(line, head, fields)?;
    ended(line, pauli, Form::Pauli)
}

fn exponential(line: &[u8], fields: &mut [u64]) -> Option<Form>
    requires { Whole fields.old }
    ensures { Tried (only Forms.Exponential) line.now (found result) fields.new }
{
    let head = literal(line, start(), b"op=e ")?;
    let pauli = pauli_lists(line, head, fields)?;
    ended(line, pauli, Form::Exponential)
}

// Its lists may be long, and are read as such.
fn controlled(line: &[u8], fields: &mut [u64]) -> Option<Form>
    requires { Whole fields.old }
    ensures { Tried (only Forms.Controlled) line.now (found result) fields.new }
{
    let x = far_field(line, start(), b"op=k x=", b'L', &mut *fields)?;
    let z = far_field(line, x, b" z=", b'L', &mut *fields)?;
    let u = far_field(line, z, b" u=", b'L', &mut *fields)?;
    let v = far_field(line, u, b" v=", b'L', fields)?;
    ended(line, v, Form::Controlled)
}

fn permute(line: &[u8], fields: &mut [u64]) -> Option<Form>
    requires { Whole fields.old }
    ensures { Tried (only Forms.Permute) line.now (found result) fields.new }
{
    let s = field(line, start(), b"op=m s=", b'Q', &mut *fields)?;
    let q = field(line, s, b" q=", b'Q', fields)?;
    ended(line, q, Form::Permute)
}

// Its two lists are read here, without a call, since jobs have many measurements.
fn measure(line: &[u8], fields: &mut [u64]) -> Option<Form>
    requires { Whole fields.old }
    ensures { Tried (only Forms.Measure) line.now (found result) fields.new }
{
    let x = field(line, start(), b"op=o x=", b'L', &mut *fields)?;
    let z = field(line, x, b" z=", b'L', &mut *fields)?;
    let id = field(line, z, b" id=", b'N', fields)?;
    ended(line, id, Form::Measure)
}

fn allocate(line: &[u8], fields: &mut [u64]) -> Option<Form>
    requires { Whole fields.old }
    ensures { Tried (only Forms.Allocate) line.now (found result) fields.new }
{
    let id = field(line, start(), b"op=r id=", b'N', &mut *fields)?;
    let angle = field(line, id, b" angle=", b'B', fields)?;
    ended(line, angle, Form::Allocate)
}

fn conditional(line: &[u8], fields: &mut [u64]) -> Option<Form>
    requires { Whole fields.old }
    ensures { Tried (only Forms.Conditional) line.now (found result) fields.new }
{
    let head = literal(line, start(), b"op=f ")?;
    let pauli = pauli_lists(line, head, &mut *fields)?;
    let id = field(line, pauli, b" id=", b'L', &mut *fields)?;
    let parity = field(line, id, b" parity=", b'B', fields)?;
    ended(line, parity, Form::Conditional)
}

fn reset(line: &[u8], fields: &mut [u64]) -> Option<Form>
    requires { Whole fields.old }
    ensures { Tried (only Forms.Reset) line.now (found result) fields.new }
{
    let q = field(line, start(), b"op=z q=", b'Q', fields)?;
    ended(line, q, Form::Reset)
}

fn barrier(line: &[u8], fields: &mut [u64]) -> Option<Form>
    requires { Whole fields.old }
    ensures { Tried (only Forms.Barrier) line.now (found result) fields.new }
{
    let q = field(line, start(), b"op=b q=", b'Q', fields)?;
    ended(line, q, Form::Barrier)
}

fn inject(line: &[u8], fields: &mut [u64]) -> Option<Form>
    requires { Whole fields.old }
    ensures { Tried (only Forms.Inject) line.now (found result) fields.new }
{
    let shot = field(line, start(), b"op=i shot=", b'N', &mut *fields)?;
    let head = literal(line, shot, b" ")?;
    let pauli = pauli_lists(line, head, fields)?;
    ended(line, pauli, Form::Inject)
}

fn flip(line: &[u8], fields: &mut [u64]) -> Option<Form>
    requires { Whole fields.old }
    ensures { Tried (only Forms.Flip) line.now (found result) fields.new }
{
    let shot = field(line, start(), b"op=t shot=", b'N', &mut *fields)?;
    let id = field(line, shot, b" id=", b'N', fields)?;
    ended(line, id, Form::Flip)
}

fn element(line: &[u8], fields: &mut [u64]) -> Option<Form>
    requires { Whole fields.old }
    ensures { Tried (only Forms.Element) line.now (found result) fields.new }
{
    let pauli = pauli_lists(line, start(), fields)?;
    ended(line, pauli, Form::Element)
}

fn weighted_element(line: &[u8], fields: &mut [u64]) -> Option<Form>
    requires { Whole fields.old }
    ensures { Tried (only Forms.WeightedElement) line.now (found result) fields.new }
{
    let weight = field(line, start(), b"w=", b'H', &mut *fields)?;
    let head = literal(line, weight, b" ")?;
    let pauli = pauli_lists(line, head, fields)?;
    ended(line, pauli, Form::WeightedElement)
}

// Where the letter of an operation stands, behind `op=`, and where it ends.
pub const LETTER: usize = 3;

pub const LETTER_END: usize = LETTER + 1;

// A line that begins with `op=`, by its letter. In the contract 111 is the byte of `o`.
fn operation(line: &[u8], letter: u8, fields: &mut [u64]) -> Option<Form>
    requires { (get_or line.now 0 0 ≡ 111) × (letter ≡ get_or line.now 3 0) × Whole fields.old }
    ensures { Parsed line.now (found result) fields.new }
{
    match letter {
        b'u' => unitary(line, fields),
        b'n' => noise(line, fields),
        b'i' => inject(line, fields),
        b'o' => measure(line, fields),
        b'k' => controlled(line, fields),
        b'e' => exponential(line, fields),
        b'p' => pauli(line, fields),
        b'f' => conditional(line, fields),
        b'c' => clifford(line, fields),
        b'm' => permute(line, fields),
        b'r' => allocate(line, fields),
        b't' => flip(line, fields),
        b'z' => reset(line, fields),
        b'b' => barrier(line, fields),
        b'j' => header(line, fields),
        _ => None,
    }
}

// A line by its first byte.
fn form_at(line: &[u8], fields: &mut [u64]) -> Option<Form>
    requires { Whole fields.old }
    ensures { Parsed line.now (found result) fields.new }
{
    if line.len() < LETTER_END {
        return None;
    }
    match line[0] {
        b'o' => operation(line, line[LETTER], fields),
        b'x' => element(line, fields),
        b'w' => weighted_element(line, fields),
        _ => None,
    }
}

// What a line says: its form, and its values in the lent words.
pub fn read_line(line: &[u8], fields: &mut [u64]) -> Form
    requires { Whole fields.old }
    ensures { Parsed line.now result fields.new }
{
    match form_at(line, fields) {
        Some(form) => form,
        None => Form::Unread,
    }
}
