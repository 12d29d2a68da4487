// A noise line with its element lines, made ready for its draws: its values, its elements and the shots in which its condition is satisfied.
#![tactic(auto)]

ghost use Rattle.std.specs.Prelude.{List, ℕ, ◌+◌, ◌≤◌, length, take};
ghost use Rattle.rows.specs.Words.{bit_in};
ghost use Rattle.rows.specs.Listed.{RowsIn};
ghost use Rattle.noise.specs.Condition.{condition_of, Masks};
ghost use Rattle.faults.specs.Prepared.{NoiseLines, SomeNoise, FaultRoom, FaultRead, Room, PreparedAs};

pub mod elements;
pub mod line;

use crate::elements::{gather, keep_element};
use crate::line::fault_of;
use choice::{fill_sums, total};
use instructions::{LineRead, element_lines, has_weights};
use noise::condition::condition_mask;
use noise::{OutcomeCondition, PauliFault};
use reader::slots::OWN_LISTS;
use template::values::Values;

// A noise line by value, how many element lines follow it, and the place in the job behind them.
#[derive(Clone, Copy)]
pub struct Prepared {
    pub fault: PauliFault,
    pub element_lines: usize,
    pub behind: usize,
}

// A noise line by value, with its elements: the lines that follow it are read, and the total of their weights is the weighted kind's.
fn read_fault(
    job: &[u8],
    line: LineRead,
    element_lines: usize,
    values: Values<'_>,
    elements: &mut [u64],
    sums: &mut [f64],
    weights: &mut [f64],
) -> Prepared
    requires { SomeNoise job.now line values.words.now element_lines × FaultRoom element_lines values.words.now elements.old sums.old weights.old }
    ensures { (noiseless : List ℕ) (w : ℕ) (q : NoiseLines job.now (line.end + 1) line.form values.entry.words.now noiseless w) → FaultRead q elements.new sums.new result }
{
    let from = line.end + 1;
    let weighted = has_weights(line.form);
    // Element 0 is the Pauli of d=1, or has the qubits of d=2 as its first list; its second is then an earlier line's, and not looked at. d=3 and d=4
    // have neither: `gather` writes over what is kept here.
    keep_element(&mut *elements, 0, values, OWN_LISTS);
    let behind = gather(job, from, element_lines, weighted, elements, &mut *weights);
    let fault = fault_of(line.form, values, total(weights));
    fill_sums(fault.distribution, sums, weights);
    Prepared {
        fault,
        element_lines,
        behind,
    }
}

// The shots in which a condition is satisfied.
fn satisfied_shots(condition: OutcomeCondition, noiseless: &[u64], width: usize, mask: &mut [u64])
    requires { (condition.count ≤ 31) × RowsIn width (take condition.count condition.outcomes) noiseless.now × (width ≤ length mask.old) }
    ensures { Masks width mask.new (condition_of (take condition.count condition.outcomes) condition.parity) (bit_in width noiseless.now) }
{
    let outcomes = &condition.outcomes[..condition.count];
    condition_mask(mask, outcomes, condition.parity, noiseless, width);
}

// Makes ready the noise line that was read, by its values. Its element lines begin behind it.
pub fn prepare(
    job: &[u8],
    line: LineRead,
    values: Values<'_>,
    noiseless: &[u64],
    width: usize,
    elements: &mut [u64],
    sums: &mut [f64],
    weights: &mut [f64],
    mask: &mut [u64],
) -> Prepared
    requires { NoiseLines job.now (line.end + 1) line.form values.words.now noiseless.now width × Room values.words.now elements.old sums.old weights.old mask.old width }
    ensures { (q : NoiseLines job.now (line.end + 1) line.form values.entry.words.now noiseless.now width) → PreparedAs q elements.new sums.new mask.new result }
{
    let element_lines = element_lines(line.form, values);
    let ready = read_fault(
        job,
        line,
        element_lines,
        values,
        elements,
        &mut sums[..element_lines],
        &mut weights[..element_lines],
    );
    satisfied_shots(ready.fault.condition, noiseless, width, mask);
    ready
}
