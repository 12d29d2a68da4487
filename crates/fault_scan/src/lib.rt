// Words gone over for the next one that brings a fault. A fault is decided by `is_fault`, which compares the word's u with p. Words without a fault are
// passed over in blocks of eight, with one branch a block, by a whole number made from p, the threshold. In a block with a fault it also passes over
// the words before the fault.
#![tactic(auto)]

ghost use Rattle.std.specs.Prelude.{◌≡◌, ◌+◌, ◌-◌, ◌^◌, ◌≤◌, true, false, ◌++◌, length, if◌then◌else◌, nat_le, slice_index, Float};
ghost use Rattle.draws.specs.Draws.{falls};
ghost use Rattle.fault_scan.specs.Scan.{threshold_of, Quiet, Passed, Stopped, Skipped};

use noise::words::{STEP_WORDS, STEPS, STEPS_FLOAT, count, is_fault, next_word, word_at};

// The words of a block.
const BLOCK: usize = 8;

// A word with its top bit alone, 2^63.
const TOP_BIT: u64 = 9223372036854775808;

// ---- The threshold

// The least whole number that is not below p * 2^53: floor(word / 2048) is below it where a fault falls. It is 0 for a p that is not above zero, NaN
// included, and 2^53, above every floor(word / 2048), for one that is not below 1.
pub fn threshold(p: f64) -> u64
    ensures { result ≡ threshold_of p }
{
    if p > 0.0 {
        if p < 1.0 {
            // The product is exact; its whole part is below it if the first word of that step brings a fault.
            let whole = std::num::truncating_f64_to_u64(p * STEPS_FLOAT);
            if is_fault(whole * STEP_WORDS, p) {
                return whole + 1;
            }
            return whole;
        }
        return STEPS;
    }
    0
}

// The difference of floor(word / 2048) and the threshold, which wraps, and so has its top bit set, where a fault falls.
fn difference(word: u64, threshold: u64) -> u64
    ensures { (p : Float) → threshold ≡ threshold_of p → nat_le (2 ^ 63) result ≡ falls word p }
{
    (word / STEP_WORDS).wrapping_sub(threshold)
}

// ---- Blocks passed over

// Whether one of a block's words brings a fault. With no branch between them a compiler can take several words at once.
fn has_fault(words: &[u64], at: usize, threshold: u64) -> bool
    requires { at + 8 ≤ length words.now }
    ensures { result ≡ false → (p : Float) → threshold ≡ threshold_of p → Quiet p words.now at 8 }
{
    let mut seen = 0;
    for &word in &words[at..at + BLOCK] {
        seen |= difference(word, threshold);
    }
    seen >= TOP_BIT
}

// Of n words from a position on, how many are passed over in whole blocks without a fault.
fn pass_blocks(words: &[u64], at: usize, n: usize, threshold: u64) -> usize
    requires { n ≤ length words.now - at }
    ensures { Passed threshold words.now at n result }
{
    let mut i = 0;
    // A while: the position may lie past the end, where there is no slice of the words whose blocks a for could go over.
    while BLOCK <= n - i {
        if has_fault(words, at + i, threshold) {
            return i;
        }
        i += BLOCK;
    }
    i
}

// i if the word brings a fault, else `later`. It is small enough to become a conditional move.
fn earlier(word: u64, threshold: u64, i: usize, later: usize) -> usize
    requires { i ≤ later }
    ensures { (i ≤ result) × (result ≤ later) × ((p : Float) → threshold ≡ threshold_of p → result ≡ (if falls word p then i else later)) }
{
    if word / STEP_WORDS < threshold {
        return i;
    }
    later
}

// How many words of a block are before its first fault, from the last word to the first with no branch, since a branch would be mispredicted.
fn quiet_start(words: &[u64], at: usize, threshold: u64) -> usize
    requires { at + 8 ≤ length words.now }
    ensures { Passed threshold words.now at 8 result }
{
    let mut first = BLOCK;
    // By places: the place of the first fault is what is asked.
    for i in (0..BLOCK).rev() {
        first = earlier(words[at + i], threshold, i, first);
    }
    first
}

// `pass_blocks`, and then the words before the first fault of the block where it stops.
fn pass_quiet(words: &[u64], at: usize, n: usize, threshold: u64) -> usize
    requires { n ≤ length words.now - at }
    ensures { Passed threshold words.now at n result }
{
    let i = pass_blocks(words, at, n, threshold);
    if n - i < BLOCK {
        return i;
    }
    i + quiet_start(words, at + i, threshold)
}

// `pass_quiet` on words in two parts, the second after the first: up to the end of the part that holds the position.
fn pass_far(words: &[u64], more: &[u64], at: usize, n: usize, threshold: u64) -> usize
    requires { n ≤ length (words.now ++ more.now) - at }
    ensures { Passed threshold (words.now ++ more.now) at n result }
{
    if at < words.len() {
        return pass_quiet(words, at, n.min(words.len() - at), threshold);
    }
    pass_quiet(more, at - words.len(), n, threshold)
}

// ---- Words looked at singly

// Whether there is a next word, and it brings a fault.
pub fn falls_next(words: &[u64], more: &[u64], at: usize, p: f64) -> bool
    ensures { result ≡ true → falls (slice_index (words.now ++ more.now) at) p ≡ true }
{
    match next_word(words, more, at) {
        Some(word) => is_fault(word, p),
        None => false,
    }
}

// How many of n words bring no fault before one that does, one by one.
fn pass_near(words: &[u64], more: &[u64], at: usize, n: usize, p: f64) -> usize
    requires { n ≤ length (words.now ++ more.now) - at }
    ensures { Stopped p (words.now ++ more.now) at n result }
{
    // By places: the words lie in two parts, so that no slice has them all.
    for i in 0..n {
        if is_fault(word_at(words, more, at + i), p) {
            return i;
        }
    }
    n
}

// The number of shots, at most `shots`, before the next fault; each takes one word. It is less if the words end first. Blocks are passed over up to a
// word that the threshold doesn't pass, and `is_fault` decides that word. If fewer than eight words of a part are left, it decides each of them.
pub fn next_skip(
    words: &[u64],
    more: &[u64],
    at: usize,
    shots: usize,
    p: f64,
    threshold: u64,
) -> usize
    requires { (at ≤ length (words.now ++ more.now)) × (threshold ≡ threshold_of p) }
    ensures { Skipped p (words.now ++ more.now) at shots result }
{
    let n = shots.min(count(words, more) - at);
    let mut i = 0;
    // A loop: each turn passes over as many words as it finds without a fault.
    loop {
        i += pass_far(words, more, at + i, n - i, threshold);
        let near = pass_near(words, more, at + i, (n - i).min(BLOCK), p);
        i += near;
        if near < BLOCK {
            return i;
        }
    }
}
