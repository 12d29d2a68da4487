// The fields of made lines, put as they are chosen: they stand in a line in the order in which its values are chosen (docs/MAKING.md).
#![tactic(auto)]

ghost use Rattle.std.specs.Prelude.{◌≡◌, [], ◌∷◌, ◌+◌, ◌^◌, ◌≤◌, ◌<◌, length};
ghost use Rattle.text.specs.Bytes.{LF};
ghost use Rattle.text.specs.Number.{decimal};
ghost use Rattle.text.specs.List.{list_text};
ghost use Rattle.made.specs.Choice.{pauli};
ghost use Rattle.made_fields.specs.Lines.{FieldIs, PartIs, PauliIs};

pub mod choices;

use crate::choices::few;
use writer::{put_byte, put_bytes, put_list, put_number};

// Where the next byte of the text goes, how many outcomes are recorded, and the state of the stream.
// The state is a number that functions hand on, no struct with a `next`: each contract says what is chosen from which state.
#[derive(Clone, Copy)]
pub struct Making {
    pub at: usize,
    pub recorded: u64,
    pub state: u64,
}

impl Making {
    // The text goes on at a place, the stream from a state.
    pub fn moved(self, at: usize, state: u64) -> Making
        ensures { result ≡ record { at = at; recorded = self.recorded; state = state } }
    {
        Making { at, state, ..self }
    }

    // The same, with one outcome more recorded.
    pub fn with_outcome(self, at: usize, state: u64) -> Making
        requires { self.recorded + 1 < 2 ^ 64 }
        ensures { result ≡ record { at = at; recorded = self.recorded + 1; state = state } }
    {
        Making {
            at,
            recorded: self.recorded + 1,
            state,
        }
    }

    // The LF behind a line.
    pub fn end_line(self, out: &mut [u8]) -> Making
        requires { self.at + 1 < 2 ^ 64 }
        ensures { PartIs 1 (LF ∷ []) self.state self result out.old out.new }
    {
        let at = put_byte(out, self.at, b'\n');
        Making { at, ..self }
    }
}

// ---- Fields

// The bytes up to a value, and a list.
// Not one function with put_value: they call two functions of writer, and their texts have two bounds.
pub fn put_members(out: &mut [u8], at: usize, name: &[u8], list: &[u64]) -> usize
    requires { (length name.now ≤ 16) × (length list.now ≤ 8) × (at + 200 < 2 ^ 64) }
    ensures { FieldIs 200 at name.now (list_text list.now) out.old out.new result }
{
    let next = put_bytes(&mut *out, at, name);
    put_list(out, next, list)
}

// The bytes up to a value, and a number.
pub fn put_value(out: &mut [u8], at: usize, name: &[u8], n: u64) -> usize
    requires { (length name.now ≤ 16) × (at + 40 < 2 ^ 64) }
    ensures { FieldIs 40 at name.now (decimal n) out.old out.new result }
{
    let next = put_bytes(&mut *out, at, name);
    put_number(out, next, n)
}

// The bytes up to a Pauli on n qubits, and the Pauli.
pub fn put_pauli(out: &mut [u8], m: Making, name: &[u8], n: u64) -> Making
    requires { (length name.now ≤ 16) × (n ≤ 256) × (m.at + 400 < 2 ^ 64) }
    ensures { PauliIs name.now (pauli n m.state) m result out.old out.new }
{
    let mut x = [0u64; 8];
    let xs = few(n, m.state, &mut x);
    let next = put_members(&mut *out, m.at, name, &x[..xs.count]);
    let mut z = [0u64; 8];
    let zs = few(n, xs.state, &mut z);
    let end = put_members(out, next, b" z=", &z[..zs.count]);
    m.moved(end, zs.state)
}
