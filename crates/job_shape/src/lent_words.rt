// Whether so many words are lent as a run needs.
ghost use Rattle.std.specs.Prelude.{◌≡◌, ◌*◌, ◌^◌, ◌<◌};
ghost use Rattle.job.specs.Job.{job_of};
ghost use Rattle.job_shape.specs.Tested.{Tests};
ghost use Rattle.job_shape.specs.Enough.{suffice, enough_lent};

use crate::{Tested, test};
use job::Answer;
use job::refusals::Refusal;
use rows::Shape;

// How many words are lent of each list that a run tests.
#[derive(Clone, Copy)]
pub struct Lengths {
    pub x: usize,
    pub z: usize,
    pub deltas: usize,
    pub totals: usize,
    pub noiseless: usize,
}

// Whether so many words are lent as a run of that shape needs: for each qubit a row of the X and of the Z part, for each outcome a row of the deltas
// and of the noiseless bits, and a total.
#[tactic(auto, unfolding(crate::specs::Enough::suffice))]
fn enough(shape: Shape, lent: Lengths) -> bool
    requires { (shape.qubits * shape.width < 2 ^ 64) × (shape.outcomes * shape.width < 2 ^ 64) }
    ensures { result ≡ suffice shape lent }
{
    let frame_words = shape.qubits * shape.width;
    let outcome_words = shape.outcomes * shape.width;
    frame_words <= lent.x
        && frame_words <= lent.z
        && outcome_words <= lent.deltas
        && shape.outcomes <= lent.totals
        && outcome_words <= lent.noiseless
}

// The tests of a job, then 13.
pub fn tested(job: &[u8], lent: Lengths) -> Tested
    ensures { Tests job.now (enough_lent (job_of job.now).header lent) result }
{
    let r = test(job);
    let answer = r.answer;
    if answer.number != 0 {
        return r;
    }
    let shape = r.shape;
    if !enough(shape, lent) {
        return Tested {
            answer: Answer::refused(Refusal::Words, 0),
            shape,
        };
    }
    r
}
