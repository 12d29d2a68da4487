// Instructions of one line, without noise, other than gates and Cliffords.
ghost use Rattle.std.specs.Prelude.{◌≡◌, List, ◌+◌, ◌^◌, ◌≤◌, ◌<◌, length};
ghost use Rattle.text.specs.Bytes.{bytes};
ghost use Rattle.text.specs.Template.{line_text};
ghost use Rattle.made.specs.Choice.{pauli};
ghost use Rattle.made.specs.Making.{one_sided, controlled, permute, conditional, reset_qubits_of, reset, inject, flip, measure, allocate, barrier};
ghost use Rattle.made_fields.specs.Chosen.{ListIs};
ghost use Rattle.writer.specs.Placed.{Puts};
ghost use Rattle.made_fields.specs.Lines.{FieldIs, MadeIs, Ready};
ghost use Rattle.made_lines.specs.Plain.{PauliLineIs};

use job::{Header, SECOND_EDITION};
use made_fields::choices::{Numbers, cyclic, few, pick, stretch};
use made_fields::{Making, put_members, put_pauli, put_value};
use writer::put_bytes;

// ---- Lines with Paulis

// A Pauli behind the bytes up to it, and no more.
pub fn put_pauli_line(out: &mut [u8], m: Making, h: Header, name: &[u8]) -> Making
    requires { Ready h m × (length name.now ≤ 16) }
    ensures { PauliLineIs name.now (pauli h.qubits m.state) m result out.old out.new }
{
    let next = put_pauli(&mut *out, m, name, h.qubits);
    next.end_line(out)
}

// Control and target of X parts alone, or of Z parts alone.
fn put_sides(out: &mut [u8], at: usize, y: u64, a: &[u64], b: &[u64]) -> usize
    requires { (length a.now ≤ 8) × (length b.now ≤ 8) × (at + 500 < 2 ^ 64) }
    ensures { Puts at (line_text (bytes "op=k x=L z=L u=L v=L") (one_sided y a.now b.now)) out.old out.new result × (result ≤ at + 500) }
{
    if y == 0 {
        let next = put_members(&mut *out, at, b"op=k x=", a);
        let end = put_members(&mut *out, next, b" z=- u=", b);
        return put_bytes(out, end, b" v=-");
    }
    let next = put_members(&mut *out, at, b"op=k x=- z=", a);
    put_members(out, next, b" u=- v=", b)
}

pub fn put_controlled(out: &mut [u8], m: Making, h: Header) -> Making
    requires { Ready h m }
    ensures { MadeIs (controlled h m.recorded m.state) m result out.old out.new }
{
    let y = pick(2, m.state);
    let mut x = [0u64; 8];
    let xs = few(h.qubits, y.state, &mut x);
    let mut z = [0u64; 8];
    let zs = few(h.qubits, xs.state, &mut z);
    let end = put_sides(&mut *out, m.at, y.value, &x[..xs.count], &z[..zs.count]);
    m.moved(end, zs.state).end_line(out)
}

pub fn put_conditional(out: &mut [u8], m: Making, h: Header) -> Making
    requires { Ready h m }
    ensures { MadeIs (conditional h m.recorded m.state) m result out.old out.new }
{
    let next = put_pauli(&mut *out, m, b"op=f x=", h.qubits);
    let mut list = [0u64; 8];
    let ids = few(m.recorded, next.state, &mut list);
    let at = put_members(&mut *out, next.at, b" id=", &list[..ids.count]);
    let b = pick(2, ids.state);
    let end = put_value(&mut *out, at, b" parity=", b.value);
    m.moved(end, b.state).end_line(out)
}

pub fn put_injection(out: &mut [u8], m: Making, h: Header) -> Making
    requires { Ready h m }
    ensures { MadeIs (inject h m.recorded m.state) m result out.old out.new }
{
    let shot = pick(h.shots, m.state);
    let at = put_value(&mut *out, m.at, b"op=i shot=", shot.value);
    let next = put_pauli(&mut *out, m.moved(at, shot.state), b" x=", h.qubits);
    next.end_line(out)
}

pub fn put_measure(out: &mut [u8], m: Making, h: Header) -> Making
    requires { Ready h m × (m.recorded < h.outcomes) }
    ensures { MadeIs (measure h m.recorded m.state) m result out.old out.new }
{
    let next = put_pauli(&mut *out, m, b"op=o x=", h.qubits);
    let end = put_value(&mut *out, next.at, b" id=", m.recorded);
    m.with_outcome(end, next.state).end_line(out)
}

// ---- Lines with lists of qubits

pub fn put_permute(out: &mut [u8], m: Making, h: Header) -> Making
    requires { Ready h m }
    ensures { MadeIs (permute h m.recorded m.state) m result out.old out.new }
{
    let mut list = [0u64; 8];
    let q = stretch(h.qubits, 8, m.state, &mut list);
    let r = pick(q.count as u64, q.state);
    let mut places = [0u64; 8];
    cyclic(&mut places, q.count, q.count as u64, r.value);
    let next = put_members(&mut *out, m.at, b"op=m s=", &places[..q.count]);
    let end = put_members(&mut *out, next, b" q=", &list[..q.count]);
    m.moved(end, r.state).end_line(out)
}

// One qubit in the first edition.
fn reset_qubits(h: Header, state: u64, list: &mut [u64]) -> Numbers
    requires { (0 < h.qubits) × (h.qubits ≤ 256) × (8 ≤ length list.old) }
    ensures { ListIs 8 (reset_qubits_of h 0 state) list.new result }
{
    if h.edition == SECOND_EDITION {
        return stretch(h.qubits, 8, state, list);
    }
    let a = pick(h.qubits, state);
    list[0] = a.value;
    Numbers {
        count: 1,
        state: a.state,
    }
}

pub fn put_reset(out: &mut [u8], m: Making, h: Header) -> Making
    requires { Ready h m }
    ensures { MadeIs (reset h m.recorded m.state) m result out.old out.new }
{
    let mut list = [0u64; 8];
    let q = reset_qubits(h, m.state, &mut list);
    let end = put_members(&mut *out, m.at, b"op=z q=", &list[..q.count]);
    m.moved(end, q.state).end_line(out)
}

pub fn put_barrier(out: &mut [u8], m: Making, h: Header) -> Making
    requires { Ready h m }
    ensures { MadeIs (barrier h m.recorded m.state) m result out.old out.new }
{
    let mut list = [0u64; 8];
    let q = stretch(h.qubits, 8, m.state, &mut list);
    let end = put_members(&mut *out, m.at, b"op=b q=", &list[..q.count]);
    m.moved(end, q.state).end_line(out)
}

// ---- Lines of numbers

pub fn put_flip(out: &mut [u8], m: Making, h: Header) -> Making
    requires { Ready h m × (0 < m.recorded) }
    ensures { MadeIs (flip h m.recorded m.state) m result out.old out.new }
{
    let shot = pick(h.shots, m.state);
    let next = put_value(&mut *out, m.at, b"op=t shot=", shot.value);
    let id = pick(m.recorded, shot.state);
    let end = put_value(&mut *out, next, b" id=", id.value);
    m.moved(end, id.state).end_line(out)
}

pub fn put_allocate(out: &mut [u8], m: Making, h: Header) -> Making
    requires { Ready h m × (m.recorded < h.outcomes) }
    ensures { MadeIs (allocate h m.recorded m.state) m result out.old out.new }
{
    let next = put_value(&mut *out, m.at, b"op=r id=", m.recorded);
    let angle = pick(2, m.state);
    let end = put_value(&mut *out, next, b" angle=", angle.value);
    m.with_outcome(end, angle.state).end_line(out)
}
