// Totals: a number for each row of a matrix of bits, equal to the ones in the row. A row that changed is counted again; a single bit that changes is
// one more or one less. And the other way, in one shot: the sum modulo 2 of listed rows.
#![tactic(auto)]

ghost use Rattle.std.specs.Prelude.{◌≡◌, false, ℕ, ◌+◌, ◌*◌, ◌/◌, ◌^◌, ◌<◌, ◌≤◌, length, get_or, set};
ghost use Rattle.rows.specs.Words.{bit_in};
ghost use Rattle.rows.specs.Overwrite.{flipped};
ghost use Rattle.rows.specs.Listed.{RowsIn};
ghost use Rattle.totals.specs.Ones.{ones_to, ones_in};
ghost use Rattle.totals.specs.Held.{TotalsHeld};
ghost use Rattle.totals.specs.Sum.{delta_sum_of};

use pauli::{OutcomeId, Shot, WORD_BITS, outcome_at};
use rows::Shape;

// Whether a bit of these words is 1.
fn any_set(words: &[u64]) -> bool
    ensures { result ≡ false → (i : ℕ) → i < length words.now → get_or words.now i 0 ≡ 0 }
{
    let mut sum = 0u64;
    for &word in words {
        sum |= word;
    }
    sum != 0
}

// How many bits of these words are 1.
fn count_words(words: &[u64]) -> u64
    requires { 64 * length words.now < 2 ^ 64 }
    ensures { result ≡ ones_in words.now }
{
    let mut ones = 0u64;
    for word in words {
        ones += word.count_ones() as u64;
    }
    ones
}

// The same, where often none is 1: then the words are not counted one by one.
fn count_few(words: &[u64]) -> u64
    requires { 64 * length words.now < 2 ^ 64 }
    ensures { result ≡ ones_in words.now }
{
    if any_set(words) {
        count_words(words)
    } else {
        0
    }
}

// As many words make a block.
const BLOCK: usize = 8;

// How many bits of row r are 1, a block at a time.
fn count_row(rows: &[u64], w: usize, r: usize) -> u64
    requires { (r * w + w ≤ length rows.now) × (64 * w < 2 ^ 64) }
    ensures { result ≡ ones_to (64 * w) (bit_in w rows.now r) }
{
    let mut left = &rows[r * w..r * w + w];
    let mut ones = 0u64;
    while let Some((block, rest)) = left.split_at_checked(BLOCK) {
        ones += count_few(block);
        left = rest;
    }
    ones + count_words(left)
}

// Puts the ones of an outcome's row for its total, after the row changed.
pub fn recount(rows: &[u64], totals: &mut [u64], w: usize, outcome: OutcomeId)
    requires { (outcome.0 * w + w ≤ length rows.now) × (64 * w < 2 ^ 64) × (outcome.0 < length totals.old) }
    ensures { totals.new ≡ set totals.old outcome.0 (ones_to (64 * w) (bit_in w rows.now outcome.0)) }
{
    let r = outcome.0;
    totals[r] = count_row(rows, w, r);
}

// Adds 1 to an outcome's bit in a shot. Its total has one more then, or one less where the bit was 1.
pub fn flip_counted(
    rows: &mut [u64],
    totals: &mut [u64],
    shape: Shape,
    outcome: OutcomeId,
    shot: Shot,
)
    requires { (outcome.0 * shape.width + shape.width ≤ length rows.old) × (outcome.0 < shape.outcomes) × (shot.0 < 64 * shape.width) × TotalsHeld shape.width shape.outcomes rows.old totals.old }
    ensures { (rows.new ≡ flipped shape.width shot.0 outcome.0 rows.old) × TotalsHeld shape.width shape.outcomes rows.new totals.new }
{
    let r = outcome.0;
    let s = shot.0;
    let was = (rows[r * shape.width + s / WORD_BITS] >> (s % WORD_BITS)) % 2;
    totals[r] = totals[r] + 1 - 2 * was;
    row_loops::flip_bit(rows, shape.width, r, shot);
}

// The sum modulo 2 of the listed outcomes' deltas in a shot, where a row has w words. Whole words are added, and the shot's bit is taken at the end.
pub fn delta_sum(deltas: &[u64], w: usize, shot: Shot, set: &[u64]) -> u64
    requires { RowsIn w set.now deltas.now × (shot.0 / 64 < w) }
    ensures { result ≡ delta_sum_of w deltas.now shot.0 set.now }
{
    let s = shot.0;
    let place = s / WORD_BITS;
    let mut word = 0u64;
    // By place: `outcome_at` takes a member out as an outcome's id.
    for k in 0..set.len() {
        let id = outcome_at(set, k);
        word ^= deltas[id.0 * w + place];
    }
    (word >> (s % WORD_BITS)) % 2
}
