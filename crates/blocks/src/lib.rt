// Blocks of 64 words of 64 bits: rows and columns change places, in six rounds.
// A round of width h takes the rows and columns in groups of 2h, and in each square of 2h by 2h exchanges the two quarters of h by h off its
// diagonal. After the rounds of widths 32 to h whole squares of h by h stand in their new places, with their inside as it was; after width 1 each bit
// does. (H. S. Warren, Hacker's Delight, section 7-3.)
#![tactic(auto)]

ghost use Rattle.std.specs.Prelude.{◌≡◌, true, ◌+◌, ◌*◌, ◌/◌, ◌<◌, ◌≤◌, length, get_or};
ghost use Rattle.rows.specs.Overwrite.{overwrite};
ghost use Rattle.blocks.specs.Exchange.{Exchanged, Crossed, is_mask, crossed};
ghost use Rattle.blocks.specs.Strided.{Within, scattered};

// ---- The exchange

// Rows `at` to at + h - 1, each with the row that is h further: the upper bits of the first and the lower bits of the second change places. The mask
// has a 1 for each lower bit.
fn cross(block: &mut [u64], at: usize, h: usize, mask: u64)
    requires { (at + h + h ≤ length block.old) × (h < 64) }
    ensures { block.new ≡ crossed h mask at h block.old }
{
    // By index: two rows of one block change places.
    for i in 0..h {
        let low = block[at + i];
        let high = block[at + h + i];
        let moved = ((low >> h) ^ high) & mask;
        block[at + i] = low ^ (moved << h);
        block[at + h + i] = high ^ moved;
    }
}

// A round of width h.
fn round(block: &mut [u64], h: usize, mask: u64)
    requires { (length block.old ≡ 64) × (0 < h) × (h ≤ 32) × (32 / h * (2 * h) ≡ 64) × (is_mask h mask ≡ true) }
    ensures { Crossed h block.old block.new }
{
    let n = 32 / h;
    for a in 0..n {
        cross(block, a * (2 * h), h, mask);
    }
}

// Rows and columns change places.
pub fn exchange(block: &mut [u64])
    requires { length block.old ≡ 64 }
    ensures { Exchanged block.old block.new }
{
    round(block, 32, 0x00000000ffffffff);
    round(block, 16, 0x0000ffff0000ffff);
    round(block, 8, 0x00ff00ff00ff00ff);
    round(block, 4, 0x0f0f0f0f0f0f0f0f);
    round(block, 2, 0x3333333333333333);
    round(block, 1, 0x5555555555555555);
}

// ---- To and from a block

// The first n words of a block are every step-th word of src, from `from` on.
// n is a parameter, here and below: the last group of rows has fewer than 64.
pub fn gather(block: &mut [u64], src: &[u64], from: usize, step: usize, n: usize)
    requires { (n ≤ length block.old) × Within from step n src.now }
    ensures { block.new ≡ overwrite 0 n (λ i. get_or src.now (from + i * step) 0) block.old }
{
    for (i, word) in block[..n].iter_mut().enumerate() {
        *word = src[from + i * step];
    }
}

// Every step-th word of dst, from `at` on, is one of the first n words of a block.
pub fn scatter(dst: &mut [u64], at: usize, step: usize, block: &[u64], n: usize)
    requires { (n ≤ length block.now) × Within at step n dst.old }
    ensures { dst.new ≡ scattered at step n (λ j. get_or block.now j 0) dst.old }
{
    for (j, &word) in block[..n].iter().enumerate() {
        dst[at + j * step] = word;
    }
}
