// The tests of a job.
#![tactic(auto)]

ghost use Rattle.std.specs.Prelude.{◌≡◌, true};
ghost use Rattle.job.specs.Refusals.{number_of};
ghost use Rattle.job.specs.Job.{well_ended_of, check_job};
ghost use Rattle.template.specs.Values.{Whole};
ghost use Rattle.checker.specs.Examines.{Examines};

pub mod tests;

use crate::tests::{next, refusal};
use check_values::context::{Context, no_context};
use job::limits::MAX_BYTES;
use job::refusals::Refusal;
use job::{Answer, FIRST_EDITION, Header};
use line_reader::{Reader, next_line};
use reader::read_line;
use template::values::{Values, blank};

// Not empty, not too long, LF at the end.
#[tactic(auto, unfolding(job::specs::Job::well_ended_of))]
fn well_ended(job: &[u8]) -> bool
    ensures { result ≡ well_ended_of job.now }
{
    let n = job.len();
    n != 0 && n <= MAX_BYTES && job[n - 1] == b'\n'
}

// The answer of the tests of a job; of an accepted job also its header's numbers, how many outcomes it records, and how many lines it has.
#[derive(Clone, Copy)]
pub struct Examined {
    pub answer: Answer,
    pub header: Header,
    pub recorded: u64,
    pub lines: u64,
}

// A job that is refused.
fn refused(refusal: Refusal, line: u64) -> Examined
    ensures { result.answer ≡ record { number = number_of refusal; line = line } }
{
    Examined {
        answer: Answer::refused(refusal, line),
        header: Header {
            edition: FIRST_EDITION,
            qubits: 0,
            outcomes: 0,
            shots: 0,
        },
        recorded: 0,
        lines: 0,
    }
}

// One reader hands out every line up to the first that is refused. The values of a line go into the lent words.
fn all_lines(job: &[u8], fields: &mut [u64]) -> Examined
    requires { (well_ended_of job.now ≡ true) × Whole fields.old }
    ensures { Examines job.now result }
{
    let mut r = Reader { job, at: 0 };
    let mut context = no_context();
    let mut lines = 0;
    // A while: the reader says where the next line begins.
    while r.at < job.len() {
        let line = next_line(&mut r);
        lines += 1;
        let form = read_line(line, &mut *fields);
        let values = Values { words: &*fields };
        if let Err(refusal) = refusal(context, r.at == job.len(), form, values) {
            return refused(refusal, lines);
        }
        context = next(context, form, values);
    }
    Examined {
        answer: Answer::accepted(),
        header: context.header,
        recorded: context.recorded,
        lines,
    }
}

// The tests of a job, and what the calls after them have to know of the job, so that they need not read it for that.
pub fn examine(job: &[u8]) -> Examined
    ensures { Examines job.now result }
{
    if !well_ended(job) {
        return refused(Refusal::Length, 0);
    }
    let mut fields = blank();
    all_lines(job, &mut fields)
}

// The tests of a job: the first bad line, and its lowest number.
pub fn check(job: &[u8]) -> Answer
    ensures { result ≡ check_job job.now }
{
    examine(job).answer
}
