// The words of a seed, filled into lent words.
#![tactic(auto)]

ghost use Rattle.std.specs.Prelude.{◌≡◌, length};
ghost use Rattle.stream.specs.Stream.{step, stepped, words_from, fill_reply};

use job::{Answer, refusals};

// The next state, which is also the word.
pub fn step(state: u64) -> u64
    ensures { result ≡ step state }
{
    let a = state ^ (state << 13);
    let b = a ^ (a >> 7);
    b ^ (b << 17)
}

// A block is filled by four chains of steps side by side, each over its quarter: within a chain each step waits for the one before it.
const QUARTER: usize = 1024;

const BLOCK: usize = 4 * QUARTER;

// Jumps over 1,024, 2,048 and 3,072 steps. A step is linear over exclusive or, so the state behind them is a sum of states after 0 to 63 steps, and
// of the same ones from whichever state: bit k says whether that after k steps is in the sum.
const JUMP_1024: u64 = 0x5347bd72b527afb7;

const JUMP_2048: u64 = 0xf2df0c3ec4bcaff7;

const JUMP_3072: u64 = 0xa7815edb7afebac4;

// The bits of a state.
const STATE_BITS: u64 = 64;

// The states from which the second, third and fourth quarter of a block go on.
#[derive(Clone, Copy)]
struct Starts {
    second: u64,
    third: u64,
    fourth: u64,
}

fn jump(state: u64) -> Starts
    ensures { (result.second ≡ stepped 1024 state) × (result.third ≡ stepped 2048 state) × (result.fourth ≡ stepped 3072 state) }
{
    let mut second = 0;
    let mut third = 0;
    let mut fourth = 0;
    let mut ahead = state;
    for k in 0u64..STATE_BITS {
        second ^= ahead * (JUMP_1024 >> k & 1);
        third ^= ahead * (JUMP_2048 >> k & 1);
        fourth ^= ahead * (JUMP_3072 >> k & 1);
        ahead = step(ahead);
    }
    Starts {
        second,
        third,
        fourth,
    }
}

// Fills a block with the words behind a state, and gives the state at its end.
fn fill_block(state: u64, words: &mut [u64]) -> u64
    requires { length words.old ≡ 4096 }
    ensures { (words.new ≡ words_from 4096 state) × (result ≡ stepped 4096 state) }
{
    let from = jump(state);
    let mut a = state;
    let mut b = from.second;
    let mut c = from.third;
    let mut d = from.fourth;
    // By index: four chains go side by side, each over its quarter.
    for i in 0..QUARTER {
        a = step(a);
        words[i] = a;
        b = step(b);
        words[QUARTER + i] = b;
        c = step(c);
        words[2 * QUARTER + i] = c;
        d = step(d);
        words[3 * QUARTER + i] = d;
    }
    d
}

// Fills a list with the words behind a seed, which itself is none of them. From zero the stream would stand still: 22, and nothing is written.
pub fn fill(seed: u64, words: &mut [u64]) -> Answer
    ensures { fill_reply seed words.old ≡ record { answered = result; words = words.new } }
{
    if seed == 0 {
        return Answer {
            number: refusals::SEED,
            line: 0,
        };
    }
    let mut state = seed;
    let rest = words.len() % BLOCK;
    let blocks = words.len() / BLOCK;
    for i in 0..rest {
        let word = step(state);
        words[i] = word;
        state = word;
    }
    for k in 0..blocks {
        let from = rest + k * BLOCK;
        let end = from + BLOCK;
        state = fill_block(state, &mut words[from..end]);
    }
    Answer { number: 0, line: 0 }
}
