// The loops over rows of words that Pauli frames are made of; crate rows says how a matrix of bits lies in a slice, w words a row.
// Loops go word by word, so that they are vectorised; no row is copied that need not be.
#![tactic(auto)]

ghost use Rattle.std.specs.Prelude.{◌≡◌, ◌+◌, ◌*◌, ◌^◌, ◌<◌, ◌≤◌, length};
ghost use Rattle.rows.specs.Overwrite.{cleared, copied, xored, swapped, flipped};
ghost use Rattle.rows.specs.Listed.{RowsIn, over_list, collected};
ghost use Rattle.rows.specs.Shape.{shape_of};

use pauli::{Shot, WORD_BITS};
use rows::{Shape, words_per_row};

// The shape for so many qubits, outcomes and shots: a row has as many words as its shots need.
pub fn shape_of(qubits: usize, outcomes: usize, shots: usize) -> Shape
    requires { shots + 63 < 2 ^ 64 }
    ensures { result ≡ shape_of qubits outcomes shots }
{
    Shape {
        qubits,
        outcomes,
        shots,
        width: words_per_row(shots),
    }
}

// ---- Runs of words

// Sets n words from `at` on to 0.
// Not by `fill`, which took 0.38 s where a loop took 0.35, over 30 million calls of 1 to 16 words.
pub fn clear(words: &mut [u64], at: usize, n: usize)
    requires { at + n ≤ length words.old }
    ensures { words.new ≡ cleared at n words.old }
{
    for word in &mut words[at..at + n] {
        *word = 0;
    }
}

// Puts n words of src, from `from` on, for those of dst from `at` on.
pub fn copy(dst: &mut [u64], at: usize, src: &[u64], from: usize, n: usize)
    requires { (at + n ≤ length dst.old) × (from + n ≤ length src.now) }
    ensures { dst.new ≡ copied at from n src.now dst.old }
{
    // By index: copy_from_slice takes 0.7 ns more a call, a tenth of a copy of 8 words.
    for j in 0..n {
        dst[at + j] = src[from + j];
    }
}

// Adds n words of src, from `from` on, to those of dst from `at` on.
// By index, here and below: a zip of two parts is no plainer, and its `next` tests both ends at each word.
pub fn xor_words(dst: &mut [u64], at: usize, src: &[u64], from: usize, n: usize)
    requires { (at + n ≤ length dst.old) × (from + n ≤ length src.now) }
    ensures { dst.new ≡ xored at from n src.now dst.old }
{
    for j in 0..n {
        dst[at + j] ^= src[from + j];
    }
}

// Adds four runs of n words of src, from the four places on, to the words of dst from `at` on, which are read and written once for the four.
fn xor_four(
    dst: &mut [u64],
    at: usize,
    src: &[u64],
    first: usize,
    second: usize,
    third: usize,
    fourth: usize,
    n: usize,
)
    requires { (at + n ≤ length dst.old) × (first + n ≤ length src.now) × (second + n ≤ length src.now) × (third + n ≤ length src.now) × (fourth + n ≤ length src.now) }
    ensures { dst.new ≡ xored at fourth n src.now (xored at third n src.now (xored at second n src.now (xored at first n src.now dst.old))) }
{
    for j in 0..n {
        dst[at + j] = dst[at + j]
            ^ src[first + j]
            ^ src[second + j]
            ^ src[third + j]
            ^ src[fourth + j];
    }
}

// Adds n words of src, from `from` on, to those of dst from `first` on and to those from `second` on; a second place above the first is behind
// the whole run from there. The words of src are read once for both.
fn xor_twice(dst: &mut [u64], first: usize, second: usize, src: &[u64], from: usize, n: usize)
    requires { (first + n ≤ length dst.old) × (second + n ≤ length dst.old) × (from + n ≤ length src.now) × (first < second → first + n ≤ second) }
    ensures { dst.new ≡ xored second from n src.now (xored first from n src.now dst.old) }
{
    for j in 0..n {
        let word = src[from + j];
        dst[first + j] ^= word;
        dst[second + j] ^= word;
    }
}

// Exchanges n words of x from `at` on with n words of z from `at` on. By index: `swap_with_slice` is never inlined.
pub fn swap_words(x: &mut [u64], z: &mut [u64], at: usize, n: usize)
    requires { (at + n ≤ length x.old) × (at + n ≤ length z.old) }
    ensures { (x.new ≡ copied at at n z.old x.old) × (z.new ≡ copied at at n x.old z.old) }
{
    for j in 0..n {
        let word = x[at + j];
        x[at + j] = z[at + j];
        z[at + j] = word;
    }
}

// ---- Rows of one matrix
// Not by `xor_words` and `swap_words`: two rows of one slice are no two slices, and split_at_mut would want to know which row is the first.

// Adds row src to row dst.
pub fn add_row(rows: &mut [u64], w: usize, dst: usize, src: usize)
    requires { (dst * w + w ≤ length rows.old) × (src * w + w ≤ length rows.old) × (dst ≡ src → ⊥) }
    ensures { rows.new ≡ xored (dst * w) (src * w) w rows.old rows.old }
{
    let at = dst * w;
    let from = src * w;
    for j in 0..w {
        rows[at + j] ^= rows[from + j];
    }
}

// Exchanges rows a and b.
pub fn swap_rows(rows: &mut [u64], w: usize, a: usize, b: usize)
    requires { (a * w + w ≤ length rows.old) × (b * w + w ≤ length rows.old) × (a ≡ b → ⊥) }
    ensures { rows.new ≡ swapped (a * w) (b * w) w rows.old }
{
    let first = a * w;
    let second = b * w;
    for j in 0..w {
        let word = rows[first + j];
        rows[first + j] = rows[second + j];
        rows[second + j] = word;
    }
}

// Adds 1 to a shot's bit of row r.
pub fn flip_bit(rows: &mut [u64], w: usize, r: usize, shot: Shot)
    requires { (r * w + w ≤ length rows.old) × (shot.0 < 64 * w) }
    ensures { rows.new ≡ flipped w shot.0 r rows.old }
{
    let s = shot.0;
    let k = r * w + s / WORD_BITS;
    rows[k] ^= 1u64 << (s % WORD_BITS);
}

// ---- Rows that are listed

// Adds the listed rows of one matrix to row r of another.
pub fn add_listed(sums: &mut [u64], r: usize, rows: &[u64], w: usize, list: &[u64])
    requires { (r * w + w ≤ length sums.old) × RowsIn w list.now rows.now }
    ensures { sums.new ≡ over_list (λ q. xored (r * w) (q * w) w rows.now) list.now sums.old }
{
    let at = r * w;
    let mut left = list;
    while let [a, b, c, d, rest @ ..] = left {
        xor_four(
            &mut *sums,
            at,
            rows,
            *a as usize * w,
            *b as usize * w,
            *c as usize * w,
            *d as usize * w,
            w,
        );
        left = rest;
    }
    for &row in left {
        xor_words(sums, at, rows, row as usize * w, w);
    }
}

// Puts the sum of the listed rows of one matrix for row r of another.
pub fn sum_listed(sums: &mut [u64], r: usize, rows: &[u64], w: usize, list: &[u64])
    requires { (r * w + w ≤ length sums.old) × RowsIn w list.now rows.now }
    ensures { sums.new ≡ over_list (λ q. xored (r * w) (q * w) w rows.now) list.now (cleared (r * w) w sums.old) }
{
    clear(&mut *sums, r * w, w);
    add_listed(sums, r, rows, w, list);
}

// Adds row r of one matrix, a mask, to the listed rows of another.
pub fn add_mask_listed(rows: &mut [u64], w: usize, list: &[u64], masks: &[u64], r: usize)
    requires { (r * w + w ≤ length masks.now) × RowsIn w list.now rows.old }
    ensures { rows.new ≡ over_list (λ q. xored (q * w) (r * w) w masks.now) list.now rows.old }
{
    let from = r * w;
    let mut left = list;
    while let [a, b, rest @ ..] = left {
        xor_twice(&mut *rows, *a as usize * w, *b as usize * w, masks, from, w);
        left = rest;
    }
    for &row in left {
        xor_words(rows, row as usize * w, masks, from, w);
    }
}

// Clears the listed rows.
pub fn clear_listed(rows: &mut [u64], w: usize, list: &[u64])
    requires { RowsIn w list.now rows.old }
    ensures { rows.new ≡ over_list (λ q. cleared (q * w) w) list.now rows.old }
{
    for &row in list {
        clear(rows, row as usize * w, w);
    }
}

// Adds 1 to a shot's bit of the listed rows.
pub fn flip_listed(rows: &mut [u64], w: usize, list: &[u64], shot: Shot)
    requires { (shot.0 < 64 * w) × RowsIn w list.now rows.old }
    ensures { rows.new ≡ over_list (flipped w shot.0) list.now rows.old }
{
    for &row in list {
        flip_bit(rows, w, row as usize, shot);
    }
}

// Saves the listed rows of one matrix: they become the rows of another from `first` on, in the list's order.
pub fn save_listed(saved: &mut [u64], first: usize, rows: &[u64], w: usize, list: &[u64])
    requires { (first + length list.now < 2 ^ 64) × ((first + length list.now) * w ≤ length saved.old) × RowsIn w list.now rows.now }
    ensures { saved.new ≡ collected w rows.now first list.now saved.old }
{
    for (i, &row) in list.iter().enumerate() {
        copy(saved, (first + i) * w, rows, row as usize * w, w);
    }
}
