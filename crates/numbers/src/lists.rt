// Lists of numbers or words with commas. The members go into lent words, as many as there is room for; a list is read to its end, however long it is.
ghost use Rattle.std.specs.Prelude.{◌≡◌, ◌&&◌, ◌||◌, List, [], ◌∷◌, ◌++◌, ℕ, ◌+◌, ◌^◌, ◌<◌, ◌≤◌, max, eqb, ltb, set, length, Some, IfSome};
ghost use Rattle.text.specs.Bytes.{comma, split};
ghost use Rattle.text.specs.List.{pieces_of, piece_of, list_Q, list_L, list_C, is_dash_of};
ghost use Rattle.text.specs.Number.{is_decimal};
ghost use Rattle.numbers.specs.Read.{read, listed_of, ListRead, ShortIn, MemberAt};

use crate::pieces::find;
use crate::{hex16, number};

// A list as it was read: how many members it has, the largest (0 of none), and whether they rise strictly.
// The largest of none is 0 and no Option: it goes into lent words, and the count beside it says whether there is one.
#[derive(Clone, Copy)]
pub struct Listed {
    pub count: usize,
    pub largest: u64,
    pub rising: bool,
}

pub fn larger(a: u64, b: u64) -> u64
    ensures { result ≡ max a b }
{
    a.max(b)
}

impl Listed {
    pub fn empty() -> Listed
        ensures { result ≡ listed_of [] }
    {
        Listed {
            count: 0,
            largest: 0,
            rising: true,
        }
    }

    fn rises(self, n: u64) -> bool
        ensures { result ≡ (self.rising && (eqb self.count 0 || ltb self.largest n)) }
    {
        self.rising && (self.count == 0 || self.largest < n)
    }

    // The list with one more member at its end, which goes into the lent words if there is room.
    pub fn push(self, n: u64, out: &mut [u64]) -> Listed
        requires { self.count + 1 < 2 ^ 64 }
        ensures listed { (d : List ℕ) → self ≡ listed_of d → result ≡ listed_of (d ++ n ∷ []) }
        ensures stored { out.new ≡ set out.old self.count n }
    {
        if self.count < out.len() {
            out[self.count] = n;
        }
        Listed {
            count: self.count + 1,
            largest: self.largest.max(n),
            rising: self.rises(n),
        }
    }
}

// A piece: a word by its 16 hexadecimal digits, or a number.
fn piece(s: &[u8], hex: bool) -> Option<u64>
    ensures { read result ≡ piece_of hex s.now }
{
    if hex {
        return hex16(s);
    }
    number(s)
}

// A number of at most three digits that ends at a comma: its digits, and its value.
#[derive(Clone, Copy)]
struct Short {
    digits: usize,
    value: u64,
}

fn is_digit(b: u8) -> bool
    ensures { result ≡ is_decimal b }
{
    b'0' <= b && b <= b'9'
}

// The short number that four bytes begin with.
fn short_number(a: u8, b: u8, c: u8, d: u8) -> Option<Short>
    ensures { IfSome result (λ s. (rest : List ℕ) → ShortIn s.digits s.value (a ∷ b ∷ c ∷ d ∷ rest)) }
{
    if !is_digit(a) {
        return None;
    }
    let one = (a - b'0') as u64;
    if b == b',' {
        return Some(Short {
            digits: 1,
            value: one,
        });
    }
    if !is_digit(b) {
        return None;
    }
    if a == b'0' {
        return None;
    }
    let two = one * 10 + (b - b'0') as u64;
    if c == b',' {
        return Some(Short {
            digits: 2,
            value: two,
        });
    }
    if !is_digit(c) {
        return None;
    }
    if d != b',' {
        return None;
    }
    Some(Short {
        digits: 3,
        value: two * 10 + (c - b'0') as u64,
    })
}

// A member of a list, and where it ends.
#[derive(Clone, Copy)]
struct Member {
    value: Option<u64>,
    end: usize,
}

// The member from `at` on, cut at the comma.
fn cut_member(s: &[u8], at: usize, hex: bool) -> Member
    requires { at ≤ length s.now }
    ensures { MemberAt hex s.now at result }
{
    let end = find(s, at, b',');
    let value = piece(&s[at..end], hex);
    Member { value, end }
}

// The short number from `at` on.
fn short_at(s: &[u8], at: usize, hex: bool) -> Option<Short>
    requires { at ≤ length s.now }
    ensures { IfSome result (λ short. MemberAt hex s.now at (record { value = Some short.value; end = at + short.digits })) }
{
    if hex {
        return None;
    }
    if s.len() - at < 4 {
        return None;
    }
    let second = at + 1;
    let third = second + 1;
    let fourth = third + 1;
    short_number(s[at], s[second], s[third], s[fourth])
}

// The member from `at` on. Most are short numbers, which are read as the comma is looked for.
fn read_member(s: &[u8], at: usize, hex: bool) -> Member
    requires { at ≤ length s.now }
    ensures { MemberAt hex s.now at result }
{
    match short_at(s, at, hex) {
        Some(short) => Member {
            value: Some(short.value),
            end: at + short.digits,
        },
        None => cut_member(s, at, hex),
    }
}

// A list of pieces in any order, never empty.
pub fn list_by(s: &[u8], hex: bool, out: &mut [u64]) -> Option<Listed>
    ensures { ListRead (pieces_of (piece_of hex) (split comma s.now)) result out.old out.new }
{
    let mut l = Listed::empty();
    let mut at = 0;
    // A loop: a member says where the next one begins.
    loop {
        let member = read_member(s, at, hex);
        let n = member.value?;
        l = l.push(n, &mut *out);
        if member.end == s.len() {
            return Some(l);
        }
        at = member.end + 1;
    }
}

// Q: numbers in any order, never empty.
pub fn list_q(s: &[u8], out: &mut [u64]) -> Option<Listed>
    ensures { ListRead (list_Q s.now) result out.old out.new }
{
    list_by(s, false, out)
}

fn is_dash(s: &[u8]) -> bool
    ensures { result ≡ is_dash_of s.now }
{
    s.len() == 1 && s[0] == b'-'
}

// L: a strictly rising list, `-` when empty.
pub fn list_l(s: &[u8], out: &mut [u64]) -> Option<Listed>
    ensures { ListRead (list_L s.now) result out.old out.new }
{
    if is_dash(s) {
        return Some(Listed::empty());
    }
    let l = list_q(s, out)?;
    if !l.rising {
        return None;
    }
    Some(l)
}

// C: a number, or `-` for none.
pub fn list_c(s: &[u8], out: &mut [u64]) -> Option<Listed>
    ensures { ListRead (list_C s.now) result out.old out.new }
{
    if is_dash(s) {
        return Some(Listed::empty());
    }
    let n = number(s)?;
    Some(Listed::empty().push(n, out))
}
