// A condition as a mask: a bit for each shot.
ghost use Rattle.std.specs.Prelude.{◌≡◌, ℕ, ◌<◌, ◌≤◌, not, ◌||◌, length, ◌==◌};
ghost use Rattle.pauli.specs.Bits.{bit};
ghost use Rattle.job.specs.Grammar.{is_one};
ghost use Rattle.rows.specs.Words.{bit_in};
ghost use Rattle.rows.specs.Listed.{RowsIn};
ghost use Rattle.noise.specs.Condition.{condition_of, Masks};

const ALL_SHOTS: u64 = u64::MAX;

// Each word of the mask before the noiseless bits are added: all its shots where there is no condition or its parity is 0, and else none.
fn start_mask(count: usize, parity: u64) -> u64
    ensures { (k : ℕ) → k < 64 → bit result k ≡ (count == 0 || not (is_one parity)) }
{
    if count == 0 {
        return ALL_SHOTS;
    }
    if parity == 1 {
        return 0;
    }
    ALL_SHOTS
}

// The shots whose condition is satisfied: the noiseless bits of the listed outcomes sum to the parity. All where none is listed.
pub fn condition_mask(
    mask: &mut [u64],
    outcomes: &[u64],
    parity: u64,
    noiseless: &[u64],
    width: usize,
)
    requires { (width ≤ length mask.old) × RowsIn width outcomes.now noiseless.now }
    ensures { Masks width mask.new (condition_of outcomes.now parity) (bit_in width noiseless.now) }
{
    mask[..width].fill(start_mask(outcomes.len(), parity));
    row_loops::add_listed(mask, 0, noiseless, width, outcomes);
}
