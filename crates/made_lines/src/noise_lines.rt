// Noise, with its element lines.
ghost use Rattle.std.specs.Prelude.{◌≡◌, List, [], ◌∷◌, ◌++◌, ℕ, ◌+◌, ◌^◌, ◌≤◌, ◌<◌, length, get_or};
ghost use Rattle.text.specs.Bytes.{LF, bytes, unlines};
ghost use Rattle.text.specs.List.{list_text};
ghost use Rattle.job.specs.declared.Header.{Header};
ghost use Rattle.writer.specs.Placed.{Puts};
ghost use Rattle.made.specs.Choice.{pauli};
ghost use Rattle.made.specs.Making.{probabilities, weights, correlation, parity, noise_start, single, depolarizing, element_text, elements, listed};
ghost use Rattle.made_fields.specs.Chosen.{NumberIs};
ghost use Rattle.made_fields.specs.Lines.{FieldIs, PartIs, MadeIs, Ready};
ghost use Rattle.made_lines.specs.Noise.{beginning, StartIs, count_text, listed_template};

use job::Header;
use job_numbers::depolarizing_size;
use made_fields::choices::{Number, few, pick, stretch};
use made_fields::{Making, put_members, put_pauli, put_value};
use writer::{put_bytes, put_hex};

// The probabilities, by their bits: 0, 0.001, 0.01, 0.1, 0.5 and 1.
fn probability(i: u64) -> u64
    requires { i < 6 }
    ensures { result ≡ get_or probabilities i 0 }
{
    match i {
        0 => 0,
        1 => 0x3f50624dd2f1a9fc,
        2 => 0x3f847ae147ae147b,
        3 => 0x3fb999999999999a,
        4 => 0x3fe0000000000000,
        _ => 0x3ff0000000000000,
    }
}

// The weight of an element by its place, by its bits: 1, 0, 0.5 and 0.25.
fn weight(place: usize) -> u64
    requires { place < 4 }
    ensures { result ≡ get_or weights place 0 }
{
    match place {
        0 => 0x3ff0000000000000,
        1 => 0,
        2 => 0x3fe0000000000000,
        _ => 0x3fd0000000000000,
    }
}

// Half of the values of c are no correlation, the others one of 8.
fn put_correlation(out: &mut [u8], at: usize, c: u64) -> usize
    requires { at + 40 < 2 ^ 64 }
    ensures { FieldIs 40 at (bytes " corr=") (list_text (correlation c)) out.old out.new result }
{
    if c < 8 {
        return put_bytes(out, at, b" corr=-");
    }
    put_value(out, at, b" corr=", c - 8)
}

// The parity of a condition over so many outcomes: 0 and no word where there is none.
fn parity(count: usize, state: u64) -> Number
    ensures { (ids : List ℕ) → length ids ≡ count → NumberIs (parity ids state) result }
{
    if count == 0 {
        return Number { value: 0, state };
    }
    pick(2, state)
}

// p and the correlation, with which every noise line begins.
fn put_probability(out: &mut [u8], m: Making) -> Making
    requires { m.at + 80 < 2 ^ 64 }
    ensures { PartIs 80 (beginning m.state).value (beginning m.state).state m result out.old out.new }
{
    let p = pick(6, m.state);
    let next = put_bytes(&mut *out, m.at, b"op=n p=");
    let at = put_hex(&mut *out, next, probability(p.value));
    let c = pick(16, p.state);
    let end = put_correlation(out, at, c.value);
    m.moved(end, c.state)
}

// What every noise line has in front.
fn put_start(out: &mut [u8], m: Making) -> Making
    requires { (m.recorded ≤ 1024) × (m.at + 400 < 2 ^ 64) }
    ensures { (h : Header) → StartIs (noise_start h m.recorded m.state) m result out.old out.new }
{
    let start = put_probability(&mut *out, m);
    let mut list = [0u64; 8];
    let ids = few(m.recorded, start.state, &mut list);
    let at = put_members(&mut *out, start.at, b" cond=", &list[..ids.count]);
    let b = parity(ids.count, ids.state);
    let end = put_value(out, at, b" parity=", b.value);
    m.moved(end, b.state)
}

pub fn put_single(out: &mut [u8], m: Making, h: Header) -> Making
    requires { Ready h m }
    ensures { MadeIs (single h m.recorded m.state) m result out.old out.new }
{
    let start = put_start(&mut *out, m);
    let next = put_pauli(&mut *out, start, b" d=1 x=", h.qubits);
    let end = put_bytes(&mut *out, next.at, b" size=1");
    m.moved(end, next.state).end_line(out)
}

// d=2.
pub fn put_spread(out: &mut [u8], m: Making, h: Header) -> Making
    requires { Ready h m }
    ensures { MadeIs (depolarizing h m.recorded m.state) m result out.old out.new }
{
    let start = put_start(&mut *out, m);
    let mut list = [0u64; 8];
    let q = stretch(h.qubits, 4, start.state, &mut list);
    let at = put_members(&mut *out, start.at, b" d=2 q=", &list[..q.count]);
    let end = put_value(&mut *out, at, b" size=", depolarizing_size(q.count as u64));
    m.moved(end, q.state).end_line(out)
}

// ---- Listed elements

// How a noise line with n element lines ends.
fn put_count(out: &mut [u8], at: usize, n: u64, weighted: bool) -> usize
    requires { at + 80 < 2 ^ 64 }
    ensures { Puts at (count_text weighted n) out.old out.new result × (result ≤ at + 80) }
{
    let name: &[u8] = if weighted { b" d=4 n=" } else { b" d=3 n=" };
    let next = put_value(&mut *out, at, name, n);
    put_value(out, next, b" size=", n)
}

// An element line, with the weight of its place or without.
fn put_element(out: &mut [u8], m: Making, n: u64, weighted: bool, place: usize) -> Making
    requires { (n ≤ 256) × (place < 4) × (m.at + 500 < 2 ^ 64) }
    ensures { PartIs 500 (element_text weighted place (pauli n m.state).value ++ LF ∷ []) (pauli n m.state).state m result out.old out.new }
{
    if !weighted {
        let next = put_pauli(&mut *out, m, b"x=", n);
        return next.end_line(out);
    }
    let next = put_bytes(&mut *out, m.at, b"w=");
    let at = put_hex(&mut *out, next, weight(place));
    let end = put_pauli(&mut *out, m.moved(at, m.state), b" x=", n);
    end.end_line(out)
}

fn put_elements(out: &mut [u8], m: Making, n: u64, weighted: bool, count: usize) -> Making
    requires { (n ≤ 256) × (count ≤ 4) × (m.at + 2000 < 2 ^ 64) }
    ensures { PartIs 2000 (unlines (elements n weighted count 0 m.state).value) (elements n weighted count 0 m.state).state m result out.old out.new }
{
    let mut next = m;
    for i in 0..count {
        next = put_element(&mut *out, next, n, weighted, i);
    }
    next
}

// d=3 and d=4.
// One function for both, here and above: they differ in a name and in the weights, and two would be twins.
pub fn put_listed(out: &mut [u8], m: Making, h: Header, weighted: bool) -> Making
    requires { Ready h m }
    ensures { MadeIs (listed h m.recorded weighted (listed_template weighted) m.state) m result out.old out.new }
{
    let start = put_start(&mut *out, m);
    let n = pick(4, start.state);
    let count = n.value + 1;
    let at = put_count(&mut *out, start.at, count, weighted);
    let first = m.moved(at, n.state).end_line(&mut *out);
    put_elements(out, first, h.qubits, weighted, count as usize)
}
