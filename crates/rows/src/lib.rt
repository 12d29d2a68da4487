// Rows of 64-bit words: the definitions (specs/), and how many words a row has. The loops are in the crate row_loops.
// A matrix of bits lies in a slice, w words a row, rows in order. Bit s of row r is bit s mod 64 of word r * w + s / 64.
// A shape says how a job's bits lie so: a row for each of its qubits or outcomes, in each row a bit for each of its shots. The width is the words of
// a row.
#![tactic(auto)]

ghost use Rattle.std.specs.Prelude.{◌≡◌};
ghost use Rattle.rows.specs.Words.{words_per_row};

use pauli::WORD_BITS;

// The words of a row of so many bits.
pub fn words_per_row(bits: usize) -> usize
    ensures { result ≡ words_per_row bits }
{
    bits.div_ceil(WORD_BITS)
}

// Rows lie flat in slices, x and z beside each other, as C lends them.
#[derive(Clone, Copy)]
pub struct Shape {
    pub qubits: usize,
    pub outcomes: usize,
    pub shots: usize,
    pub width: usize,
}
