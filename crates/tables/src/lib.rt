// The table of a Clifford on k of 1 to 8 qubits, in words, the least significant first: bit 2k * r + c is at column c of row r.
// A row may lie in two words.
#![tactic(auto)]

ghost use Rattle.std.specs.Prelude.{◌≡◌, not, ◌&&◌, ◌*◌, ◌^◌, ◌≤◌, ◌<◌, eqb, ltb, leb, length};
ghost use Rattle.job.specs.Clifford.{max_clifford_qubits, table_words_of, table_of};
ghost use Rattle.tables.specs.Rows.{TableFor, row_word, RowsOf};

use pauli::WORD_BITS;

pub const MAX_CLIFFORD_QUBITS: u64 = 8;

// The rows of the largest table: X rows, then Z rows.
pub const MAX_TABLE_ROWS: usize = 2 * MAX_CLIFFORD_QUBITS as usize;

// The bits of a table.
fn table_bits(k: usize) -> usize
    requires { k ≤ 8 }
    ensures { result ≡ 4 * (k * k) }
{
    4 * (k * k)
}

// As many words as its bits need.
pub fn table_words(k: usize) -> usize
    requires { k ≤ 8 }
    ensures { result ≡ table_words_of k }
{
    table_bits(k).div_ceil(WORD_BITS)
}

// Whether a line with so many operands may have so many words: above 8 operands it may have any.
pub fn words_fit(k: u64, words: u64) -> bool
    ensures { result ≡ not (leb k max_clifford_qubits && not (eqb words (table_words_of k))) }
{
    MAX_CLIFFORD_QUBITS < k || words == table_words(k as usize) as u64
}

// Row r of the table, its 2k bits.
pub fn row(words: &[u64], k: usize, r: usize) -> u64
    requires { TableFor k words.now × (r < 2 * k) }
    ensures { result ≡ row_word k (table_of words.now) r }
{
    let at = 2 * k * r;
    let i = at / WORD_BITS;
    let from = at % WORD_BITS;
    let mask = (1u64 << (2 * k)) - 1;
    let low = words[i] >> from;
    if from + 2 * k <= WORD_BITS {
        low & mask
    } else {
        (low | (words[i + 1] << (WORD_BITS - from))) & mask
    }
}

// All rows.
pub fn rows(words: &[u64], k: usize, out: &mut [u64])
    requires { TableFor k words.now × (2 * k ≤ length out.old) }
    ensures { RowsOf k (table_of words.now) out.new }
{
    for (r, word) in out[..2 * k].iter_mut().enumerate() {
        *word = row(words, k, r);
    }
}

// Whether bits from 4k² up are 0. They stand in the last word, where 4k² bits do not fill it.
pub fn no_more_bits(words: &[u64], k: usize) -> bool
    requires { TableFor k words.now }
    ensures { result ≡ ltb (table_of words.now) (2 ^ (4 * (k * k))) }
{
    let used = table_bits(k) % WORD_BITS;
    used == 0 || words[words.len() - 1] >> used == 0
}
