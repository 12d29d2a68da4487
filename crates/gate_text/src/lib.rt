// A gate line that is known to have its form, as each line of a job that passed the tests has: its code and its operands are read in one pass over
// their bytes, and nothing of the form is tested again.
#![tactic(auto)]

ghost use Rattle.std.specs.Prelude.{◌≡◌, true};
ghost use Rattle.gate_text.specs.Gate.{ListThere, OperandsRead, GateBytes, GateLine, GateRead};

use numbers::known::read_digits;
use pauli::QubitId;

// Where the letter of an operation stands, behind `op=`, and where it ends.
// reader has the same two: this crate stands beside it, so that its check loads no reader.
const LETTER: usize = 3;

const LETTER_END: usize = LETTER + 1;

// Whether a line begins as a gate line does.
pub fn is_gate(line: &[u8]) -> bool
    ensures { result ≡ true → GateBytes line.now }
{
    if line.len() < LETTER_END {
        return false;
    }
    if line[0] != b'o' {
        return false;
    }
    line[LETTER] == b'u'
}

// The first two members of a list, the second 0 where there is none, and how many of the two there are.
#[derive(Clone, Copy)]
struct Operands {
    first: QubitId,
    second: QubitId,
    count: u64,
}

// The operands that stand from a place up to the line's end.
fn read_operands(line: &[u8], from: usize) -> Operands
    requires { ListThere line.now from }
    ensures { OperandsRead line.now from result }
{
    let first = read_digits(line, from);
    if first.behind == line.len() {
        return Operands {
            first: QubitId(first.value as usize),
            second: QubitId(0),
            count: 1,
        };
    }
    let second = read_digits(line, first.behind + 1);
    Operands {
        first: QubitId(first.value as usize),
        second: QubitId(second.value as usize),
        count: 2,
    }
}

// What a gate line says: the gate's code and its first two operands, the second 0 where there is none, and how many of the two there are.
#[derive(Clone, Copy)]
pub struct Gate {
    pub code: u64,
    pub first: QubitId,
    pub second: QubitId,
    pub count: u64,
}

// The place of the code, behind `op=u g=`, and the bytes of ` q=`, behind which the operands begin.
const CODE: usize = 7;

const Q_KEY: usize = 3;

pub fn read_gate(line: &[u8]) -> Gate
    requires { GateLine line.now }
    ensures { GateRead line.now result }
{
    let code = read_digits(line, CODE);
    let operands = read_operands(line, code.behind + Q_KEY);
    let first = operands.first;
    let second = operands.second;
    Gate {
        code: code.value,
        first,
        second,
        count: operands.count,
    }
}
