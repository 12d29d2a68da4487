// The text of a printed session: a refusal, or a header and the deltas of its outcomes.
#![tactic(auto)]

ghost use Rattle.std.specs.Prelude.{◌≡◌, cond, [], ◌∷◌, ◌++◌, ◌+◌, ◌*◌, ◌/◌, ◌^◌, ◌<◌, ◌≤◌, length};
ghost use Rattle.text.specs.Bytes.{LF, unlines};
ghost use Rattle.rows.specs.Words.{words_per_row, bit_in};
ghost use Rattle.session.specs.Session.{refusal_lines, bit_text, delta_lines};
ghost use Rattle.writer.specs.Placed.{Puts};
ghost use Rattle.session_text.specs.Lines.{header_text, delta_text};

use job::{Answer, Header};
use line_writer::put_numbers;
use pauli::{OutcomeId, Shot, WORD_BITS};
use rows::words_per_row;
use writer::put_byte;

// `ok=0 refusal=N line=N`
pub fn put_refusal(out: &mut [u8], a: Answer) -> usize
    ensures { Puts 0 (unlines (refusal_lines a)) out.old out.new result }
{
    let numbers = [a.number, a.line];
    let next = put_numbers(&mut *out, 0, b"ok=0 refusal=N line=N", &numbers);
    put_byte(out, next, b'\n')
}

// `ok=1 qubits=N outcomes=N shots=N`
fn put_header(out: &mut [u8], h: Header) -> usize
    ensures { Puts 0 (header_text h ++ LF ∷ []) out.old out.new result }
{
    let numbers = [h.qubits, h.outcomes, h.shots];
    let next = put_numbers(&mut *out, 0, b"ok=1 qubits=N outcomes=N shots=N", &numbers);
    put_byte(out, next, b'\n')
}

// The delta of an outcome in a shot, as 0 or 1, where a row has w words.
#[tactic(auto, unfolding(rows::specs::Words::bit_in, pauli::specs::Bits::bit))]
fn delta_byte(deltas: &[u64], w: usize, id: OutcomeId, shot: Shot) -> u8
    requires { (id.0 * w + w ≤ length deltas.now) × (shot.0 / 64 < w) }
    ensures { result ≡ cond (bit_in w deltas.now id.0 shot.0) 49 48 }
{
    let row = id.0;
    let s = shot.0;
    let set = (deltas[row * w + s / WORD_BITS] >> (s % WORD_BITS)) % 2 == 1;
    if set { b'1' } else { b'0' }
}

// The deltas of an outcome, shot 0 first.
fn put_bits(out: &mut [u8], at: usize, deltas: &[u64], id: OutcomeId, shots: usize) -> usize
    requires { (shots ≤ 64) × (at + shots < 2 ^ 64) × (id.0 * words_per_row shots + words_per_row shots ≤ length deltas.now) }
    ensures { Puts at (bit_text (bit_in (words_per_row shots) deltas.now id.0) shots 0) out.old out.new result }
{
    let w = words_per_row(shots);
    let mut next = at;
    for s in 0..shots {
        let b = delta_byte(deltas, w, id, Shot(s));
        next = put_byte(&mut *out, next, b);
    }
    next
}

// `id=N delta=`, and the bits
fn put_delta(out: &mut [u8], at: usize, deltas: &[u64], id: OutcomeId, shots: usize) -> usize
    requires { (shots ≤ 64) × (at + 104 < 2 ^ 64) × (id.0 * words_per_row shots + words_per_row shots ≤ length deltas.now) }
    ensures { Puts at (delta_text shots deltas.now id.0 ++ LF ∷ []) out.old out.new result }
{
    let numbers = [id.0 as u64];
    let bits = put_numbers(&mut *out, at, b"id=N delta=", &numbers);
    let next = put_bits(&mut *out, bits, deltas, id, shots);
    put_byte(out, next, b'\n')
}

// The deltas of so many outcomes, a line each.
fn put_deltas(out: &mut [u8], at: usize, h: Header, deltas: &[u64], n: usize) -> usize
    requires { (h.shots ≤ 64) × (at + 104 * n < 2 ^ 64) × (n * words_per_row h.shots ≤ length deltas.now) }
    ensures { Puts at (unlines (delta_lines h deltas.now n 0)) out.old out.new result }
{
    let mut next = at;
    for id in 0..n {
        next = put_delta(&mut *out, next, deltas, OutcomeId(id), h.shots as usize);
    }
    next
}

// The session of a job that was run: its header, and its recorded outcomes.
pub fn put_session(out: &mut [u8], h: Header, deltas: &[u64], n: usize) -> usize
    requires { (h.shots ≤ 64) × (n ≤ 256) × (n * words_per_row h.shots ≤ length deltas.now) }
    ensures { Puts 0 (unlines (header_text h ∷ delta_lines h deltas.now n 0)) out.old out.new result }
{
    let next = put_header(&mut *out, h);
    put_deltas(out, next, h, deltas, n)
}
