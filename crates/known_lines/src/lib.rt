// A line of an accepted job, read again. Of gate lines, element lines and controlled Paulis the form isn't tested once more; other lines are read as
// for the tests.
#![tactic(auto)]

ghost use Rattle.std.specs.Prelude.{◌≡◌, true, ◌<◌, get_or};
ghost use Rattle.line_reader.specs.Reading.{line_from_of};
ghost use Rattle.gate_text.specs.Gate.{GateBytes};
ghost use Rattle.reader.specs.declared.Form.TheVariants as Forms;
ghost use Rattle.reader.specs.Parsed.{Parsed};
ghost use Rattle.template.specs.Values.{Whole};
ghost use Rattle.instructions.specs.Reading.{NextLine};
ghost use Rattle.instructions.specs.Lines.{KnownLine, KnownAt};
ghost use Rattle.known_lines.specs.Lists.{ListsThere, ListsPut};

use gate_text::{is_gate, read_gate};
use instructions::LineRead;
use line_reader::line_from;
use numbers::known::known_hex;
use reader::slots::{GATE, OPERANDS, TARGET_X, WEIGHT, X};
use reader::{Form, LETTER, LETTER_END, read_line};
use template::values::{set_few, set_known, set_number};

// Whether a line has a byte at a place.
fn has_byte(line: &[u8], at: usize, b: u8) -> bool
    ensures { result ≡ true → get_or line.now at 0 ≡ b }
{
    if line.len() <= at {
        return false;
    }
    line[at] == b
}

// The bytes of `x=`, behind which the first list of a Pauli begins, and of ` z=`, behind which the second does. `u=` and ` v=` are as long.
const X_KEY: usize = 2;

const Z_KEY: usize = 3;

// The two lists of a Pauli, `x=L z=L` from a place on, go into a slot and the next. Answers the place behind them.
fn read_lists(line: &[u8], from: usize, slot: usize, fields: &mut [u64]) -> usize
    requires { (slot < 3) × ListsThere line.now from × Whole fields.old }
    ensures { ListsPut line.now from slot result fields.old fields.new }
{
    let behind = set_known(&mut *fields, slot, line, from + X_KEY);
    set_known(fields, slot + 1, line, behind + Z_KEY)
}

// Whether a line begins as that of a controlled Pauli does. In the contract 111 is the byte of `o`, and 107 that of `k`.
fn is_controlled(line: &[u8]) -> bool
    ensures { result ≡ true → (get_or line.now 0 0 ≡ 111) × (get_or line.now 3 0 ≡ 107) }
{
    if !has_byte(line, 0, b'o') {
        return false;
    }
    has_byte(line, LETTER, b'k')
}

// Where the control of a controlled Pauli stands, behind `op=k `. A space is between it and the target.
const CONTROL_START: usize = LETTER_END + 1;

// What a line of an accepted job says that is neither a gate line nor an element line. The form of a controlled Pauli, whose lists may be long, isn't
// tested again.
fn read_operation(line: &[u8], fields: &mut [u64]) -> Form
    requires { KnownLine line.now × Whole fields.old }
    ensures { Parsed line.now result fields.new }
{
    if !is_controlled(line) {
        return read_line(line, fields);
    }
    let behind = read_lists(line, CONTROL_START, X, &mut *fields);
    read_lists(line, behind + 1, TARGET_X, fields);
    Form::Controlled
}

// Where a weight, of 16 digits, stands in front of an element's Pauli, behind `w=`, and where `x=` begins then, behind a space.
const WEIGHT_START: usize = 2;

const WEIGHT_END: usize = WEIGHT_START + 16;

const PAULI_START: usize = WEIGHT_END + 1;

// What a line of an accepted job says that is no gate line. Of an element line the form isn't tested again either; its weight stands first, where it
// has one.
fn read_other(line: &[u8], fields: &mut [u64]) -> Form
    requires { KnownLine line.now × Whole fields.old }
    ensures { Parsed line.now result fields.new }
{
    if has_byte(line, 0, b'x') {
        read_lists(line, 0, X, fields);
        return Form::Element;
    }
    if !has_byte(line, 0, b'w') {
        return read_operation(line, fields);
    }
    let weight = known_hex(&line[WEIGHT_START..WEIGHT_END]);
    set_number(&mut *fields, WEIGHT, weight);
    read_lists(line, PAULI_START, X, fields);
    Form::WeightedElement
}

// What a gate line of an accepted job says. There are many, so they are read without testing their form again.
fn read_known_gate(line: &[u8], fields: &mut [u64])
    requires { KnownLine line.now × GateBytes line.now × Whole fields.old }
    ensures { Parsed line.now Forms.Unitary fields.new }
{
    let g = read_gate(line);
    set_number(&mut *fields, GATE, g.code);
    let first = g.first;
    let second = g.second;
    set_few(fields, OPERANDS, g.count, first.0 as u64, second.0 as u64);
}

// The fewest bytes of a gate line, `op=u g=0 q=0`, and of `x=- z=-`, with which an element line ends. None of them is an LF.
const GATE_BYTES: usize = 12;

const ELEMENT_BYTES: usize = 7;

// The line of an accepted job that begins at a place and is no gate line. The end of an element line is looked for behind its fewest bytes.
fn other_line<'a>(job: &'a [u8], at: usize) -> &'a [u8]
    requires { KnownAt job.now at }
    ensures { result.now ≡ line_from_of job.now at }
{
    let first = job[at];
    if first == b'x' {
        return line_from(job, at, ELEMENT_BYTES);
    }
    if first == b'w' {
        return line_from(job, at, PAULI_START + ELEMENT_BYTES);
    }
    line_from(job, at, 0)
}

// Reads the line of an accepted job that begins at a place. A gate line is told by its first bytes, before its end is looked for:
// every line of such a job has four or more.
pub fn next_known(job: &[u8], at: usize, fields: &mut [u64]) -> LineRead
    requires { KnownAt job.now at × Whole fields.old }
    ensures { NextLine job.now at result fields.new }
{
    if is_gate(&job[at..]) {
        let gate = line_from(job, at, GATE_BYTES);
        let end = at + gate.len();
        read_known_gate(gate, fields);
        return LineRead {
            form: Form::Unitary,
            end,
        };
    }
    let line = other_line(job, at);
    let end = at + line.len();
    let form = read_other(line, fields);
    LineRead { form, end }
}
