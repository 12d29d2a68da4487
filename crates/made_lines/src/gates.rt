// The lines of gates and of Cliffords.
ghost use Rattle.std.specs.Prelude.{◌≡◌, [], ℕ, ◌+◌, ◌^◌, ◌≤◌, ◌<◌, length, get_or};
ghost use Rattle.text.specs.List.{list_text_by};
ghost use Rattle.text.specs.Number.{hexadecimal};
ghost use Rattle.made.specs.Making.{Table, tables, table_on, suited, gate_codes_of, gate_qubits_of, unitary, clifford};
ghost use Rattle.made_fields.specs.Chosen.{ListIs};
ghost use Rattle.writer.specs.Placed.{Puts};
ghost use Rattle.made_fields.specs.Lines.{FieldIs, MadeIs, Ready};

use job::{Header, SECOND_EDITION};
use made_fields::choices::{Numbers, cyclic, pick};
use made_fields::{Making, put_members, put_value};
use pauli::QubitId;
use writer::{put_byte, put_bytes, put_hex};

// ---- Gates

// How many gate codes there are to choose from.
// Gates and tables are numbers here: docs/MAKING.md chooses them by their codes and places.
fn gate_codes(h: Header) -> u64
    ensures { result ≡ gate_codes_of h 0 }
{
    if h.qubits == 1 {
        return 11;
    }
    if h.edition == SECOND_EDITION {
        return 16;
    }
    15
}

// The qubits of a gate: the first, and for a code from 11 on another one.
fn gate_qubits(h: Header, g: u64, first: QubitId, state: u64, list: &mut [u64]) -> Numbers
    requires { (first.0 < h.qubits) × (h.qubits ≤ 256) × (g < gate_codes_of h 0) × (8 ≤ length list.old) }
    ensures { ListIs 2 (gate_qubits_of h 0 g first.0 state) list.new result }
{
    let a = first.0 as u64;
    list[0] = a;
    if g < 11 {
        return Numbers { count: 1, state };
    }
    let d = pick(h.qubits - 1, state);
    list[1] = (a + 1 + d.value) % h.qubits;
    Numbers {
        count: 2,
        state: d.state,
    }
}

pub fn put_unitary(out: &mut [u8], m: Making, h: Header) -> Making
    requires { Ready h m }
    ensures { MadeIs (unitary h m.recorded m.state) m result out.old out.new }
{
    let g = pick(gate_codes(h), m.state);
    let a = pick(h.qubits, g.state);
    let mut list = [0u64; 8];
    let first = QubitId(a.value as usize);
    let q = gate_qubits(h, g.value, first, a.state, &mut list);
    let next = put_value(&mut *out, m.at, b"op=u g=", g.value);
    let end = put_members(&mut *out, next, b" q=", &list[..q.count]);
    m.moved(end, q.state).end_line(out)
}

// ---- Cliffords

// How many tables are on at most n qubits.
fn suited_tables(n: u64) -> u64
    requires { 0 < n }
    ensures { result ≡ length (suited n tables) }
{
    if n == 1 {
        return 6;
    }
    if n < 5 {
        return 7;
    }
    8
}

fn table_qubits(i: u64) -> usize
    requires { i < 8 }
    ensures { result ≡ (get_or tables i (table_on 0 [])).qubits }
{
    match i {
        0..=5 => 1,
        6 => 2,
        _ => 5,
    }
}

// The first word of a table.
fn table_word(i: u64) -> u64
    requires { i < 8 }
    ensures { result ≡ get_or (get_or tables i (table_on 0 [])).words 0 0 }
{
    match i {
        0 => 0x6,
        1 => 0x7,
        2 => 0x9,
        3 => 0xb,
        4 => 0xd,
        5 => 0xe,
        6 => 0xc423,
        _ => 0x9f818c52929c601f,
    }
}

// The words of a table in hexadecimal. That of five qubits has two.
fn put_table(out: &mut [u8], at: usize, i: u64) -> usize
    requires { (i < 8) × (at + 40 < 2 ^ 64) }
    ensures { FieldIs 40 at [] (list_text_by hexadecimal (get_or tables i (table_on 0 [])).words) out.old out.new result }
{
    let next = put_hex(&mut *out, at, table_word(i));
    if i < 7 {
        return next;
    }
    let second = put_byte(&mut *out, next, b',');
    put_hex(out, second, 0x8ab05648c)
}

pub fn put_clifford(out: &mut [u8], m: Making, h: Header) -> Making
    requires { Ready h m }
    ensures { MadeIs (clifford h m.recorded m.state) m result out.old out.new }
{
    let i = pick(suited_tables(h.qubits), m.state);
    let a = pick(h.qubits, i.state);
    let k = table_qubits(i.value);
    let mut list = [0u64; 8];
    cyclic(&mut list, k, h.qubits, a.value);
    let next = put_members(&mut *out, m.at, b"op=c q=", &list[..k]);
    let at = put_bytes(&mut *out, next, b" t=");
    let end = put_table(&mut *out, at, i.value);
    m.moved(end, a.state).end_line(out)
}
