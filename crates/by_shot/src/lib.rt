// Outcomes by shot, and the way back: rows and columns of a matrix of bits change places, block by block of 64 by 64.
// Bits past the last column of the source go to rows of a block that are not stored. Rows of a block past the last row of the source are 0, and so
// are the bits that they become.
#![tactic(auto)]

ghost use Rattle.std.specs.Prelude.{◌≡◌, ◌+◌, ◌*◌, ◌<◌, ◌≤◌, length};
ghost use Rattle.rows.specs.Words.{words_per_row};
ghost use Rattle.by_shot.specs.Reply.{transposed, may_hold_of, enough_words, rearranged, by_shot_reply, by_outcome_reply};
ghost use Rattle.by_shot.specs.Blocks.{rows_of, Room, DoneTo};

use blocks::{exchange, gather, scatter};
use job::{Answer, FIRST_EDITION, Header, refusals};
use job_numbers::in_range;
use rows::words_per_row;

// ---- The blocks

// How many of n rows are in group a of 64.
fn rows_of(n: usize, a: usize) -> usize
    requires { 64 * a < n }
    ensures { result ≡ rows_of n a }
{
    let left = n - 64 * a;
    left.min(64)
}

// Block (a, b): group a of the source's rows and group b of its columns.
fn transpose_block(
    source: &[u64],
    target: &mut [u64],
    rows: usize,
    columns: usize,
    a: usize,
    b: usize,
)
    requires { Room rows columns source.now target.old × (a < words_per_row rows) × (b < words_per_row columns) × DoneTo rows columns source.now b a target.old }
    ensures { DoneTo rows columns source.now b (a + 1) target.new }
{
    let w = words_per_row(columns);
    let v = words_per_row(rows);
    let mut block = [0u64; 64];
    gather(&mut block, source, 64 * a * w + b, w, rows_of(rows, a));
    exchange(&mut block);
    scatter(target, 64 * b * v + a, v, &block, rows_of(columns, b));
}

// Group b of the source's columns.
fn transpose_group(source: &[u64], target: &mut [u64], rows: usize, columns: usize, b: usize)
    requires { Room rows columns source.now target.old × (b < words_per_row columns) × DoneTo rows columns source.now b 0 target.old }
    ensures { DoneTo rows columns source.now (b + 1) 0 target.new }
{
    let v = words_per_row(rows);
    for a in 0..v {
        transpose_block(source, target, rows, columns, a, b);
    }
}

// All of it, into exactly the words that it needs.
fn transpose(source: &[u64], target: &mut [u64], rows: usize, columns: usize)
    requires { Room rows columns source.now target.old × (length target.old ≡ columns * words_per_row rows) }
    ensures { target.new ≡ transposed rows columns source.now }
{
    let w = words_per_row(columns);
    for b in 0..w {
        transpose_group(source, target, rows, columns, b);
    }
}

// ---- The calls

// A refusal of the call itself, which has no line.
fn refused(number: u64) -> Answer
    ensures { result ≡ record { number = number; line = 0 } }
{
    Answer { number, line: 0 }
}

// Whether the lent words are enough on both sides.
#[tactic(auto, unfolding(crate::specs::Reply::enough_words))]
fn enough_words(rows: usize, columns: usize, source: &[u64], target: &[u64]) -> bool
    requires { (rows ≤ 4096) × (columns ≤ 4096) }
    ensures { result ≡ enough_words rows columns source.now target.now }
{
    rows * words_per_row(columns) <= source.len() && columns * words_per_row(rows) <= target.len()
}

// 13: lent words too few, on either side.
fn rearrange(rows: usize, columns: usize, source: &[u64], target: &mut [u64]) -> Answer
    requires { (rows ≤ 4096) × (columns ≤ 4096) }
    ensures { rearranged rows columns source.now target.old ≡ record { answered = result; words = target.new } }
{
    if !enough_words(rows, columns, source, target) {
        return refused(refusals::WORDS);
    }
    let needed = columns * words_per_row(rows);
    transpose(source, &mut target[..needed], rows, columns);
    Answer { number: 0, line: 0 }
}

// Whether a header may hold these counts.
fn may_hold(outcomes: u64, shots: u64) -> bool
    ensures { result ≡ may_hold_of outcomes shots }
{
    in_range(Header {
        edition: FIRST_EDITION,
        qubits: 1,
        outcomes,
        shots,
    })
}

// The deltas by shot: each shot becomes a row of ceil(outcomes/64) words. A refusal writes nothing, and words beyond those that are needed stay.
// Two functions, as C has two calls: they differ in which number counts the rows of the source.
pub fn by_shot(outcomes: u64, shots: u64, deltas: &[u64], out: &mut [u64]) -> Answer
    ensures { by_shot_reply outcomes shots deltas.now out.old ≡ record { answered = result; words = out.new } }
{
    if !may_hold(outcomes, shots) {
        return refused(refusals::HEADER);
    }
    rearrange(outcomes as usize, shots as usize, deltas, out)
}

// The way back: rows by shot become deltas, each outcome a row of ceil(shots/64) words.
pub fn by_outcome(outcomes: u64, shots: u64, rows: &[u64], out: &mut [u64]) -> Answer
    ensures { by_outcome_reply outcomes shots rows.now out.old ≡ record { answered = result; words = out.new } }
{
    if !may_hold(outcomes, shots) {
        return refused(refusals::HEADER);
    }
    rearrange(shots as usize, outcomes as usize, rows, out)
}
