// Numbers and lists that are known to stand at a place, as those of a job that passed the tests: they are read in one pass over their bytes, and
// nothing of their form is tested again.
ghost use Rattle.std.specs.Prelude.{◌≡◌, true, ◌≤◌, eqb, length, get_or};
ghost use Rattle.text.specs.Bytes.{comma};
ghost use Rattle.text.specs.Number.{all_hex_of, hex_from};
ghost use Rattle.numbers.specs.Known.{DigitsThere, DigitsRead, ListThere, KnownRead};

use crate::hex_value;
use crate::lists::Listed;

// A number by its digits, and the place behind them.
#[derive(Clone, Copy)]
pub struct Digits {
    pub value: u64,
    pub behind: usize,
}

// The number that stands from a place up to the first byte below `0`. Both separators are below it.
pub fn read_digits(s: &[u8], from: usize) -> Digits
    requires { DigitsThere s.now from }
    ensures { DigitsRead s.now from result }
{
    let mut v: u64 = 0;
    let mut i = from;
    // A while: the place where the digits end is a part of the answer.
    while i < s.len() {
        let b = s[i];
        if b < b'0' {
            return Digits {
                value: v,
                behind: i,
            };
        }
        v = v * 10 + (b - b'0') as u64;
        i += 1;
    }
    Digits {
        value: v,
        behind: i,
    }
}

// The number that 16 hexadecimal digits are. `hex16` keeps a loop of its own: its tests need the digits' values too, and beside them the compiler
// computes each once.
pub fn known_hex(s: &[u8]) -> u64
    requires { (length s.now ≡ 16) × (all_hex_of s.now ≡ true) }
    ensures { result ≡ hex_from 0 s.now }
{
    let mut v: u64 = 0;
    for i in 0..16 {
        v = v * 16 + hex_value(s[i]) as u64;
    }
    v
}

// Whether a comma stands at a place.
fn is_comma(s: &[u8], at: usize) -> bool
    ensures { result ≡ eqb (get_or s.now at 0) comma }
{
    at < s.len() && s[at] == b','
}

// A list, and the place behind it.
#[derive(Clone, Copy)]
pub struct KnownList {
    pub list: Listed,
    pub behind: usize,
}

// L, from a place up to a space or the end.
pub fn known_list(s: &[u8], from: usize, out: &mut [u64]) -> KnownList
    requires { ListThere s.now from }
    ensures { KnownRead s.now from result out.old out.new }
{
    let mut list = Listed::empty();
    if s[from] == b'-' {
        return KnownList {
            list,
            behind: from + 1,
        };
    }
    let mut at = from;
    // A loop: a member says where the next one begins.
    loop {
        let n = read_digits(s, at);
        let behind = n.behind;
        list = list.push(n.value, &mut *out);
        if !is_comma(s, behind) {
            return KnownList { list, behind };
        }
        at = behind + 1;
    }
}
