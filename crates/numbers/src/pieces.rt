// Bytes cut at a separator.
ghost use Rattle.std.specs.Prelude.{◌≡◌, false, ◌+◌, ◌≤◌, length, drop};
ghost use Rattle.text.specs.Bytes.{until};

// One byte after the other.
fn find_singly(s: &[u8], at: usize, sep: u8) -> usize
    requires { at ≤ length s.now }
    ensures value { result ≡ at + until sep (drop at s.now) }
    ensures lower_bound { (at ≤ result) × (result ≤ length s.now) }
{
    let mut i = at;
    // A while: the place is the answer, also where sep stands nowhere.
    while i < s.len() {
        if s[i] == sep {
            return i;
        }
        i += 1;
    }
    i
}

// The place of the first sep from at on, or the length where there is none. The end is looked for once in four bytes.
pub fn find(s: &[u8], at: usize, sep: u8) -> usize
    requires { at ≤ length s.now }
    ensures value { result ≡ at + until sep (drop at s.now) }
    ensures lower_bound { (at ≤ result) × (result ≤ length s.now) }
{
    let mut i = at;
    // A while: four bytes are looked at in a turn.
    while 4 <= s.len() - i {
        if s[i] == sep {
            return i;
        }
        let second = i + 1;
        if s[second] == sep {
            return second;
        }
        let third = second + 1;
        if s[third] == sep {
            return third;
        }
        let fourth = third + 1;
        if s[fourth] == sep {
            return fourth;
        }
        i = fourth + 1;
    }
    find_singly(s, i, sep)
}

// ---- A separator that is likely far away

// So many bytes make a block.
const BLOCK: usize = 16;

// Whether a byte of a block is sep. With no branch between them a compiler can take all at once.
fn has_sep(s: &[u8], at: usize, sep: u8) -> bool
    requires { at + 16 ≤ length s.now }
    ensures { result ≡ false → until sep (drop at s.now) ≡ 16 + until sep (drop (at + 16) s.now) }
{
    let mut seen = 0u8;
    for i in 0..BLOCK {
        seen |= (s[at + i] == sep) as u8;
    }
    seen != 0
}

// The place up to which whole blocks have no sep.
fn pass_blocks(s: &[u8], at: usize, sep: u8) -> usize
    requires { at ≤ length s.now }
    ensures { (at + until sep (drop at s.now) ≡ result + until sep (drop result s.now)) × (at ≤ result) × (result ≤ length s.now) }
{
    let mut i = at;
    // A while: a block is passed over in a turn.
    while BLOCK <= s.len() - i {
        if has_sep(s, i, sep) {
            return i;
        }
        i += BLOCK;
    }
    i
}

// What `find` finds. Whole blocks are passed over first, which is quicker where sep is far away.
pub fn find_far(s: &[u8], at: usize, sep: u8) -> usize
    requires { at ≤ length s.now }
    ensures value { result ≡ at + until sep (drop at s.now) }
    ensures lower_bound { (at ≤ result) × (result ≤ length s.now) }
{
    find(s, pass_blocks(s, at, sep), sep)
}
