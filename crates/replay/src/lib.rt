// Stored cases, for the program that replays them: how a list of them is read. A list is a row of records. A record is a line; a record
// `add bytes=N times=N` is its line and the N bytes after it. The records `add` make up the bytes of a case, each its bytes so many times, one behind
// the other; the record after them names the call, and says what it must answer.
#![tactic(auto)]

ghost use Rattle.std.specs.Prelude.{◌≡◌, ◌+◌, ◌≤◌, ◌<◌, min, length};

use crate::compare::{Difference, Tally};
use crate::record::Record;
use numbers::hex16;
use numbers::pieces::find;

pub mod compare;
pub mod record;

// Room for a list of cases.
pub fn list_buffer() -> [u8; 786432]
    ensures { 786432 ≡ length result }
{
    [0; 786432]
}

// Room for the bytes of a case; lent bytes, and what they hold before a call.
pub fn bytes_buffer() -> [u8; 2162688]
    ensures { 2162688 ≡ length result }
{
    [65; 2162688]
}

// Room for the words of a case; lent words, and what they hold before a call.
pub fn words_buffer() -> [u64; 32768]
    ensures { 32768 ≡ length result }
{
    [4702111234474983745; 32768]
}

// How far a list was read: the place of the next record, and how many bytes of a case are held.
// The bytes lie at the front of a buffer of fixed size, since nothing is allocated.
#[derive(Clone, Copy)]
struct Gathered {
    at: usize,
    held: usize,
}

// Where a part of n ends that begins at a place; not past the end of the whole.
pub fn part_end(from: usize, n: u64, whole: usize) -> usize
    requires { from ≤ whole }
    ensures { result ≡ min (from + n) whole }
{
    from + n.min((whole - from) as u64) as usize
}

// Some bytes so many times behind those that are held; how many are held then. Where there is no room for them no more are held than before.
fn put_times(src: &[u8], times: u64, held: usize, dst: &mut [u8]) -> usize
    requires { held ≤ length dst.old }
    ensures { result ≤ length dst.old }
{
    let n = src.len();
    let mut to = held;
    for _ in 0..times {
        if dst.len() - to < n {
            return held;
        }
        dst[to..to + n].copy_from_slice(src);
        to += n;
    }
    to
}

// One record `add` more; nothing more where none stands there.
fn add(list: &[u8], g: Gathered, dst: &mut [u8]) -> Gathered
    requires { (g.at ≤ length list.now) × (g.held ≤ length dst.old) }
    ensures { (g.at ≤ result.at) × (result.at ≤ length list.now) × (result.held ≤ length dst.old) }
{
    let at = g.at;
    let e = find(list, at, b'\n');
    let Some(record) = Record::read(&list[at..e], b"add bytes=N times=N") else {
        return g;
    };
    let a = part_end(e, 1, list.len());
    let b = part_end(a, record.number(0), list.len());
    Gathered {
        at: b,
        held: put_times(&list[a..b], record.number(1), g.held, dst),
    }
}

// The bytes that the records `add` from a place on make up, at the front of dst.
fn gather(list: &[u8], from: usize, dst: &mut [u8]) -> Gathered
    requires { from ≤ length list.now }
    ensures { (from ≤ result.at) × (result.at ≤ length list.now) × (result.held ≤ length dst.old) }
{
    let mut g = Gathered { at: from, held: 0 };
    // A loop: a record says where the next one begins.
    loop {
        let next = add(list, g, &mut *dst);
        if next.at == g.at {
            return g;
        }
        g = next;
    }
}

// A case: how many bytes it has, where its record begins and ends, and where the next case begins.
#[derive(Clone, Copy)]
pub struct Case {
    pub held: usize,
    pub at: usize,
    pub end: usize,
    pub next: usize,
}

// The case at a place of a list, its bytes at the front of dst.
pub fn next_case(list: &[u8], from: usize, dst: &mut [u8]) -> Case
    requires { from < length list.now }
    ensures { (result.held ≤ length dst.old) × (result.at ≤ result.end) × (result.end ≤ length list.now) × (from < result.next) × (result.next ≤ length list.now) }
{
    let g = gather(list, from, dst);
    let end = find(list, g.at, b'\n');
    let next = if end < list.len() { end + 1 } else { end };
    Case {
        held: g.held,
        at: g.at,
        end,
        next,
    }
}

// Replays the cases of a list, each by the line of its record and its bytes. Prints where one differs.
fn replay<F: Fn(&[u8], &[u8]) -> Result<(), Difference>>(
    list: &[u8],
    bytes: &mut [u8],
    replay_case: F,
) -> Tally
    requires { F.IsAlwaysCallable replay_case }
{
    let mut t = Tally {
        cases: 0,
        differ: 0,
    };
    let mut at = 0;
    // A while: a case says where the next one begins.
    while at < list.len() {
        let c = next_case(list, at, &mut *bytes);
        match replay_case(&list[c.at..c.end], &bytes[..c.held]) {
            Ok(_) => {
                t = t.counted(true);
            }
            Err(difference) => {
                difference.print(c.at);
                t = t.counted(false);
            }
        }
        at = c.next;
    }
    t
}

// Replays the cases from standard input, then prints how many there were and how many differ.
pub fn replay_input<F: Fn(&[u8], &[u8]) -> Result<(), Difference>>(replay_case: F)
    requires { F.IsAlwaysCallable replay_case }
{
    let mut list = list_buffer();
    let mut bytes = bytes_buffer();
    let n = io::read_full(0, &mut list);
    replay(&list[..n], &mut bytes, replay_case).print();
}

// The words that some bytes are, a line of 16 hexadecimal digits each, at the front of dst, up to the first that is none or has no room;
// how many there are.
pub fn words(src: &[u8], dst: &mut [u64]) -> usize
    ensures { result ≤ length dst.old }
{
    let mut k = 0;
    let mut i = 0;
    // A while: the first line that is no word ends it.
    while k < dst.len() {
        if src.len() - i < 17 {
            return k;
        }
        let Some(v) = hex16(&src[i..i + 16]) else {
            return k;
        };
        dst[k] = v;
        i += 17;
        k += 1;
    }
    k
}
