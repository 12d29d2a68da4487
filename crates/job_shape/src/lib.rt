// The tests of a job, and whether enough words are lent; of an accepted one the shape of its rows, and where its instructions begin.
#![tactic(auto)]

ghost use Rattle.std.specs.Prelude.{◌≡◌, true};
ghost use Rattle.job_shape.specs.Tested.{Tests};
ghost use Rattle.job_shape.specs.Header.{behind_header_of};

use checker::examine;
use job::Answer;
use numbers::pieces::find;
use row_loops::shape_of;
use rows::Shape;

pub mod lent_words;

// The answer to the tests. The shape is that of the job's rows where none refuses.
#[derive(Clone, Copy)]
pub struct Tested {
    pub answer: Answer,
    pub shape: Shape,
}

pub fn test(job: &[u8]) -> Tested
    ensures { Tests job.now true result }
{
    let examined = examine(job);
    let answer = examined.answer;
    if answer.number != 0 {
        return Tested {
            answer,
            shape: shape_of(0, 0, 0),
        };
    }
    let header = examined.header;
    Tested {
        answer,
        shape: shape_of(
            header.qubits as usize,
            header.outcomes as usize,
            header.shots as usize,
        ),
    }
}

// Where the line behind the header begins.
pub fn behind_header(job: &[u8]) -> usize
    ensures { result ≡ behind_header_of job.now }
{
    find(job, 0, b'\n') + 1
}
