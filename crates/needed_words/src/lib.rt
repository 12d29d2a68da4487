// A run of a job over exactly the words that it needs: its instructions one after the other.
#![tactic(auto)]

ghost use Rattle.std.specs.Prelude.{◌≡◌, ◌++◌, ℕ, length};
ghost use Rattle.rows.specs.Overwrite.{cleared};
ghost use Rattle.run.specs.Run.{Source};
ghost use Rattle.instructions.specs.Ahead.{Ahead};
ghost use Rattle.totals.specs.Held.{TotalsHeld};
ghost use Rattle.execution.specs.Steps.{header_of, RowsFor};
ghost use Rattle.needed_words.specs.Executed.{Executes};
ghost use Rattle.needed_words.specs.Needed.{NeededReady, NeededRun};

use execution::{Draws, step};
use faults::elements::ELEMENTS_WORDS;
use job::limits::{MAX_ELEMENTS, MAX_WIDTH};
use job::{Answer, refusals};
use noise::{FIRST_INSTRUCTION_LINE, Place};
use rows::Shape;
use template::values::{KEPT, blank};

// As many rows as a line has operands.
const SCRATCH_WORDS: usize = KEPT * MAX_WIDTH;

// An answer, and how many words of the main list were taken for it. Not generic over the answer with that of settling: neither crate is below the
// other.
#[derive(Clone, Copy)]
pub struct Answered {
    pub answer: Answer,
    pub taken: usize,
}

// The instructions behind the header, which ends before byte `from` of the job.
// The room for elements, sums and weights and the scratch are made once, so that they are not cleared for each line.
fn execute<'a>(
    job: &[u8],
    from: usize,
    x: &mut [u64],
    z: &mut [u64],
    deltas: &mut [u64],
    totals: &mut [u64],
    shape: Shape,
    noiseless: &[u64],
    draws: Draws<'a>,
) -> Answered
    requires { ((recorded : ℕ) × Ahead job.now (header_of job.now shape) recorded 2 from) × RowsFor shape x.old z.old deltas.old noiseless.now × TotalsHeld shape.width shape.outcomes deltas.old totals.old }
    ensures { Executes job.now shape noiseless.now (draws.entry.main.now ++ draws.entry.more.now) draws.entry.second.now draws.entry.base from x.old z.old deltas.old x.new z.new deltas.new result × TotalsHeld shape.width shape.outcomes deltas.new totals.new }
{
    let mut values = blank();
    let mut elements = [0u64; ELEMENTS_WORDS];
    let mut sums = [0.0; MAX_ELEMENTS as usize];
    let mut weights = [0.0; MAX_ELEMENTS as usize];
    let mut scratch = [0u64; SCRATCH_WORDS];
    let mut place = Place {
        byte: from,
        line: FIRST_INSTRUCTION_LINE,
        position: 0,
    };
    // A while: each instruction says where the next one begins.
    while place.byte < job.len() {
        let moved = step(
            job,
            place,
            &mut values,
            &mut elements,
            &mut sums,
            &mut weights,
            &mut scratch,
            &mut *x,
            &mut *z,
            &mut *deltas,
            &mut *totals,
            shape,
            noiseless,
            draws,
        );
        match moved {
            Err(spent) => {
                return Answered {
                    answer: Answer {
                        number: refusals::DRAWS,
                        line: place.line,
                    },
                    taken: spent.position,
                };
            }
            Ok(next) => {
                place = next;
            }
        }
    }
    Answered {
        answer: Answer { number: 0, line: 0 },
        taken: place.position,
    }
}

fn clear_all(x: &mut [u64], z: &mut [u64], deltas: &mut [u64], totals: &mut [u64])
    ensures { (x.new ≡ cleared 0 (length x.old) x.old) × (z.new ≡ cleared 0 (length z.old) z.old) × (deltas.new ≡ cleared 0 (length deltas.old) deltas.old) × (totals.new ≡ cleared 0 (length totals.old) totals.old) }
{
    let x_words = x.len();
    row_loops::clear(x, 0, x_words);
    let z_words = z.len();
    row_loops::clear(z, 0, z_words);
    let delta_words = deltas.len();
    row_loops::clear(deltas, 0, delta_words);
    let total_words = totals.len();
    row_loops::clear(totals, 0, total_words);
}

// The words and the totals are cleared first, and again where the draws were spent.
pub fn run_needed<'a>(
    job: &[u8],
    from: usize,
    x: &mut [u64],
    z: &mut [u64],
    deltas: &mut [u64],
    totals: &mut [u64],
    shape: Shape,
    noiseless: &[u64],
    draws: Draws<'a>,
) -> Answered
    requires { NeededReady job.now shape from x.old z.old deltas.old totals.old noiseless.now }
    ensures { NeededRun job.now (header_of job.now shape) (record { noiseless = noiseless.entry.now; main = draws.entry.main.now ++ draws.entry.more.now; second = draws.entry.second.now; base = draws.entry.base }) from x.new z.new deltas.new totals.new result }
{
    clear_all(&mut *x, &mut *z, &mut *deltas, &mut *totals);
    let r = execute(
        job,
        from,
        &mut *x,
        &mut *z,
        &mut *deltas,
        &mut *totals,
        shape,
        noiseless,
        draws,
    );
    let answer = r.answer;
    if answer.number == 0 {
        return r;
    }
    clear_all(x, z, deltas, totals);
    r
}
