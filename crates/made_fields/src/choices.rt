// What the words of the stream choose, by the rule of docs/MAKING.md: numbers, and lists of numbers in lent words.
ghost use Rattle.std.specs.Prelude.{◌≡◌, ◌&&◌, ◌+◌, ◌^◌, ◌≤◌, ◌<◌, ltb, length, take};
ghost use Rattle.made.specs.Choice.{pick, marked, few, cyclic, stretch};
ghost use Rattle.made_fields.specs.Chosen.{NumberIs, ListIs, Kept};

use seed_words::step;

// A number, and the state of the stream behind it.
#[derive(Clone, Copy)]
pub struct Number {
    pub value: u64,
    pub state: u64,
}

// How many numbers a lent list has from its first word on, and the state of the stream behind them.
// No generic struct with Number: `count` names a length where `value` would name no list.
#[derive(Clone, Copy)]
pub struct Numbers {
    pub count: usize,
    pub state: u64,
}

// The next word modulo n.
pub fn pick(n: u64, state: u64) -> Number
    requires { 0 < n }
    ensures { NumberIs (pick n state) result }
{
    let word = step(state);
    Number {
        value: word % n,
        state: word,
    }
}

// Puts a number behind the first ones of a list, if asked to and if it is below top. Answers how many there are then.
fn keep(list: &mut [u64], count: usize, on: bool, q: u64, top: u64) -> usize
    requires { count < length list.old }
    ensures { Kept list.old count (on && ltb q top) q list.new result }
{
    if on && q < top {
        list[count] = q;
        return count + 1;
    }
    count
}

// Of the 8 numbers from q on, those below top whose bit of m is 1. Answers how many there are.
fn mark(list: &mut [u64], top: u64, from: u64, m: u64) -> usize
    requires { (8 ≤ length list.old) × (from + 8 < 2 ^ 64) }
    ensures { (take result list.new ≡ marked 8 top from m) × (result ≤ 8) }
{
    let mut count = 0;
    let mut bits = m;
    for q in from..from + 8 {
        count = keep(&mut *list, count, bits % 2 == 1, q, top);
        bits /= 2;
    }
    count
}

// A rising list of at most 8 numbers below top.
pub fn few(top: u64, state: u64, list: &mut [u64]) -> Numbers
    requires { (8 ≤ length list.old) × (top + 8 < 2 ^ 64) }
    ensures { ListIs 8 (few top state) list.new result }
{
    if top == 0 {
        return Numbers { count: 0, state };
    }
    let a = pick(top, state);
    let m = pick(256, a.state);
    Numbers {
        count: mark(list, top, a.value, m.value),
        state: m.state,
    }
}

// (a + i) mod n, for i below k.
pub fn cyclic(list: &mut [u64], k: usize, n: u64, a: u64)
    requires { (k ≤ length list.old) × (0 < n) × (a + k < 2 ^ 64) }
    ensures { take k list.new ≡ cyclic k n a }
{
    // By places: the value goes by the place.
    for i in 0..k {
        list[i] = (a + i as u64) % n;
    }
}

// 1 to `most` of n numbers, each once.
pub fn stretch(n: u64, most: u64, state: u64, list: &mut [u64]) -> Numbers
    requires { (8 ≤ length list.old) × (0 < n) × (0 < most) × (most ≤ 8) × (n + 8 < 2 ^ 64) }
    ensures { ListIs most (stretch n most state) list.new result }
{
    let k = pick(n.min(most), state);
    let a = pick(n, k.state);
    let count = k.value as usize + 1;
    cyclic(list, count, n, a.value);
    Numbers {
        count,
        state: a.state,
    }
}
