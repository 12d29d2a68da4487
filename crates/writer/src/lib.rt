// Text written into lent bytes. A byte whose place is past the end of the lent bytes is not written, but counted: over no bytes at all a text is only
// measured. Each function asks that the place after its text is a number.
#![tactic(auto)]

ghost use Rattle.std.specs.Prelude.{◌≡◌, ◌&&◌, [], ◌∷◌, ◌+◌, ◌-◌, ◌^◌, ◌<◌, min, leb, length};
ghost use Rattle.text.specs.Number.{decimal, hex_byte_of, hexadecimal};
ghost use Rattle.text.specs.List.{commas, list_text};
ghost use Rattle.job.specs.Job.{max_bytes};
ghost use Rattle.writer.specs.Placed.{Puts};

use crate::lengths::digits;
use job::Answer;
use job::limits::MAX_BYTES;

pub mod lengths;

// What a call that writes text says: its answer, and its byte figure.
// Calls hand it to C as it is.
#[repr(C)]
#[derive(Clone, Copy)]
pub struct TextAnswer {
    pub answer: Answer,
    pub figure: u64,
}

// A refusal with a figure of 0.
pub fn refused(answer: Answer) -> TextAnswer
    ensures { result ≡ record { answer = answer; figure = 0 } }
{
    TextAnswer { answer, figure: 0 }
}

// 15: whether a text of so many bytes fits the lent ones and the limit.
pub fn text_fits(need: usize, lent: usize) -> bool
    ensures { result ≡ (leb need lent && leb need max_bytes) }
{
    need <= lent && need <= MAX_BYTES
}

pub fn put_byte(out: &mut [u8], at: usize, b: u8) -> usize
    requires { at + 1 < 2 ^ 64 }
    ensures { Puts at (b ∷ []) out.old out.new result }
{
    if out.len() <= at {
        return at + 1;
    }
    out[at] = b;
    at + 1
}

// How many of n bytes have a place from `at` on below `length`.
fn room(length: usize, at: usize, n: usize) -> usize
    ensures { result ≡ min n («length» - at) }
{
    n.min(length.saturating_sub(at))
}

pub fn put_bytes(out: &mut [u8], at: usize, s: &[u8]) -> usize
    requires { at + length s.now < 2 ^ 64 }
    ensures { Puts at s.now out.old out.new result }
{
    let n = room(out.len(), at, s.len());
    for i in 0..n {
        out[at + i] = s[i];
    }
    at + s.len()
}

// 2^64 - 1 has so many digits.
const MAX_DIGITS: usize = 20;

// In decimal. Past the end of the lent bytes the digits are counted and not made.
pub fn put_number(out: &mut [u8], at: usize, n: u64) -> usize
    requires { at + length (decimal n) < 2 ^ 64 }
    ensures { Puts at (decimal n) out.old out.new result }
{
    if out.len() <= at {
        return at + digits(n);
    }
    let mut text = [0u8; MAX_DIGITS];
    let mut i = MAX_DIGITS;
    let mut rest = n;
    // A while: it is not known how many digits there are.
    while 9 < rest {
        i -= 1;
        text[i] = b'0' + (rest % 10) as u8;
        rest /= 10;
    }
    i -= 1;
    text[i] = b'0' + rest as u8;
    put_bytes(out, at, &text[i..])
}

fn hex_byte(d: u64) -> u8
    requires { d < 16 }
    ensures { result ≡ hex_byte_of d }
{
    if d < 10 {
        return b'0' + d as u8;
    }
    // ten before b'a'
    87 + d as u8
}

// H: 16 hexadecimal digits.
pub fn put_hex(out: &mut [u8], at: usize, n: u64) -> usize
    requires { at + length (hexadecimal n) < 2 ^ 64 }
    ensures { Puts at (hexadecimal n) out.old out.new result }
{
    let mut digits = [0u8; 16];
    let mut rest = n;
    for i in (0..16).rev() {
        digits[i] = hex_byte(rest % 16);
        rest /= 16;
    }
    put_bytes(out, at, &digits)
}

// Each number after a comma.
fn put_commas(out: &mut [u8], at: usize, l: &[u64]) -> usize
    requires { at + length (commas l.now) < 2 ^ 64 }
    ensures { Puts at (commas l.now) out.old out.new result }
{
    let mut next = at;
    for &n in l {
        next = put_byte(&mut *out, next, b',');
        next = put_number(&mut *out, next, n);
    }
    next
}

// A list with commas, `-` when empty.
pub fn put_list(out: &mut [u8], at: usize, l: &[u64]) -> usize
    requires { at + length (list_text l.now) < 2 ^ 64 }
    ensures { Puts at (list_text l.now) out.old out.new result }
{
    if l.len() == 0 {
        return put_byte(out, at, b'-');
    }
    let next = put_number(&mut *out, at, l[0]);
    put_commas(out, next, &l[1..])
}
