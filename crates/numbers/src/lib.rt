// Numbers and lists as text, and bytes cut at a separator. The definitions are in the crate text.
#![tactic(auto)]

pub mod known;
pub mod lists;
pub mod pieces;
pub mod rising;

ghost use Rattle.std.specs.Prelude.{◌≡◌, cond, ◌+◌, ◌*◌, ◌^◌, ◌≤◌, ltb, length};
ghost use Rattle.text.specs.Number.{proper as Number·proper, number_of, hex_digit, all_hex_of, hex_of, bit_of};
ghost use Rattle.numbers.specs.Read.{read};
ghost use Rattle.numbers.specs.Hex.{hex_value_of};

// Whether there are bytes, and no 0 in front of others.
fn proper(s: &[u8]) -> bool
    ensures { result ≡ Number·proper s.now }
{
    if s.len() == 0 {
        return false;
    }
    if s.len() == 1 {
        return true;
    }
    s[0] != b'0'
}

// (2^64 - 1) / 10, of which the rest is 5.
const TENTH: u64 = 1844674407370955161;

// Whether v * 10 + d is below 2^64, for a digit d.
fn fits(v: u64, d: u64) -> bool
    requires { d ≤ 9 }
    ensures { result ≡ ltb (v * 10 + d) (2 ^ 64) }
{
    if v < TENTH {
        return true;
    }
    if TENTH < v {
        return false;
    }
    d <= 5
}

// A number in decimal, below 2^64, without leading zeros, that takes all of the bytes.
pub fn number(s: &[u8]) -> Option<u64>
    ensures { read result ≡ number_of s.now }
{
    if !proper(s) {
        return None;
    }
    let mut v: u64 = 0;
    for i in 0..s.len() {
        let b = s[i];
        if b < b'0' {
            return None;
        }
        if b'9' < b {
            return None;
        }
        let d = (b - b'0') as u64;
        if !fits(v, d) {
            return None;
        }
        v = v * 10 + d;
    }
    Some(v)
}

// The lower-case hexadecimal digit that a byte is, if it is one. Its low four bits are the digit for `0` to `9`; for a letter, whose b / 64 is 1,
// they begin at 1.
fn hex_value(b: u8) -> u8
    ensures { result ≡ hex_value_of b }
{
    (b % 16 + 9 * (b / 64)) % 16
}

// So many bytes lie between `9` and `a`.
const LETTER_GAP: u8 = b'a' - b'0' - 10;

// 0 for a lower-case hexadecimal digit, 1 for any other byte: whether it is the byte of its digit. (d + 6) / 16 is 1 for a letter. Digits follow no
// pattern, so that a branch would often be foretold wrongly; this has none.
fn not_hex(b: u8) -> u8
    ensures { result ≡ cond (ltb (hex_digit b) 16) 0 1 }
{
    let d = hex_value(b);
    (b'0' + d + LETTER_GAP * ((d + 6) / 16) != b) as u8
}

// Whether 16 bytes are lower-case hexadecimal digits. None is looked for, so that all are tested at once.
fn all_hex(s: &[u8]) -> bool
    requires { length s.now ≡ 16 }
    ensures { result ≡ all_hex_of s.now }
{
    let mut wrong = 0u8;
    for i in 0..16 {
        wrong |= not_hex(s[i]);
    }
    wrong == 0
}

// H: 16 lower-case hexadecimal digits, and no other bytes.
pub fn hex16(s: &[u8]) -> Option<u64>
    ensures { read result ≡ hex_of s.now }
{
    if s.len() != 16 {
        return None;
    }
    if !all_hex(s) {
        return None;
    }
    let mut v: u64 = 0;
    for i in 0..16 {
        v = v * 16 + hex_value(s[i]) as u64;
    }
    Some(v)
}

// B: 0 or 1.
pub fn bit(s: &[u8]) -> Option<u64>
    ensures { read result ≡ bit_of s.now }
{
    if s.len() != 1 {
        return None;
    }
    match s[0] {
        b'0' => Some(0),
        b'1' => Some(1),
        _ => None,
    }
}
