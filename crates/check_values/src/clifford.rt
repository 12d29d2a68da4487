// The table of a Clifford.
ghost use Rattle.std.specs.Prelude.{◌≡◌, ℕ, ◌*◌, ◌≤◌, ◌<◌, length};
ghost use Rattle.pauli.specs.Pauli.{anticommutes};
ghost use Rattle.job.specs.Clifford.{table_of, every, generators_anticommute, is_clifford_of};
ghost use Rattle.tables.specs.Rows.{TableFor, RowsOf, in_word};
ghost use Rattle.check_values.specs.Pairs.{pair_fits_of};

use tables::{MAX_TABLE_ROWS, no_more_bits, rows};

// Whether two rows of a table on k qubits anticommute.
fn anticommute(a: u64, b: u64, k: usize) -> bool
    requires { k ≤ 8 }
    ensures { result ≡ anticommutes k (in_word k a) (in_word k b) }
{
    let low = (1u64 << k) - 1;
    let overlap = (a & low & (b >> k)) ^ ((a >> k) & b & low);
    u64::count_ones(overlap) % 2 == 1
}

// Whether the generators of two rows anticommute.
fn paired(k: usize, r: usize, s: usize) -> bool
    requires { (k ≤ 8) × (r < 2 * k) × (s < 2 * k) }
    ensures { result ≡ generators_anticommute k r s }
{
    s == r + k || r == s + k
}

// Whether two images of a table, by its rows, commute as the generators do.
fn pair_fits(images: &[u64], k: usize, r: usize, s: usize) -> bool
    requires { (k ≤ 8) × (2 * k ≤ length images.now) × (r < 2 * k) × (s < 2 * k) }
    ensures { (t : ℕ) → RowsOf k t images.now → result ≡ pair_fits_of k t r s }
{
    anticommute(images[r], images[s], k) == paired(k, r, s)
}

fn row_fits(images: &[u64], k: usize, r: usize) -> bool
    requires { (k ≤ 8) × (2 * k ≤ length images.now) × (r < 2 * k) }
    ensures { (t : ℕ) → RowsOf k t images.now → result ≡ every (2 * k) (pair_fits_of k t r) }
{
    for s in 0..2 * k {
        if !pair_fits(images, k, r, s) {
            return false;
        }
    }
    true
}

fn rows_fit(images: &[u64], k: usize) -> bool
    requires { (k ≤ 8) × (2 * k ≤ length images.now) }
    ensures { (t : ℕ) → RowsOf k t images.now → result ≡ every (2 * k) (λ r. every (2 * k) (pair_fits_of k t r)) }
{
    for r in 0..2 * k {
        if !row_fits(images, k, r) {
            return false;
        }
    }
    true
}

// Whether the images of a table commute as the generators do, and bits from 4k² up are 0. The rows are read once.
pub fn is_clifford(words: &[u64], k: usize) -> bool
    requires { TableFor k words.now }
    ensures { result ≡ is_clifford_of k (table_of words.now) }
{
    if !no_more_bits(words, k) {
        return false;
    }
    let mut images = [0u64; MAX_TABLE_ROWS];
    rows(words, k, &mut images);
    rows_fit(&images, k)
}
