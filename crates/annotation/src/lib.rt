// Annotation of a job with depolarizing noise, and the count of its fault locations.
#![tactic(auto)]

ghost use Rattle.std.specs.Prelude.{◌≡◌};
ghost use Rattle.text.specs.Bytes.{lines as Bytes·lines};
ghost use Rattle.job.specs.Job.{check_job};
ghost use Rattle.circuit.specs.Annotate.{first_unfit};
ghost use Rattle.circuit.specs.Replies.{annotate_answer, annotate_reply};
ghost use Rattle.writer.specs.Reply.{text_reply};

pub mod around;
mod line_qubits;
pub mod locations;

use crate::around::put_annotated;
use check_values::floats::probability;
use checker::check;
use job::refusals::Refusal;
use job::{Answer, refusals};
use writer::{TextAnswer, refused, text_fits};

// Annotates an accepted job. The text is measured first, over no bytes, since nothing is written with a refusal.
fn annotate_accepted(job: &[u8], p: u64, out: &mut [u8]) -> TextAnswer
    requires { (check_job job.now).number ≡ 0 }
    ensures { text_reply result out.new ≡ annotate_answer job.now p out.old (first_unfit 1 (Bytes·lines job.now)) }
{
    let bytes = match put_annotated(&mut out[..0], job, p) {
        Ok(bytes) => bytes,
        Err(unfit) => {
            return refused(Answer {
                number: refusals::ANNOTATION,
                line: unfit.line,
            });
        }
    };
    if !text_fits(bytes, out.len()) {
        return refused(Answer {
            number: refusals::ROOM,
            line: 0,
        });
    }
    let _ = put_annotated(out, job, p);
    TextAnswer {
        answer: Answer { number: 0, line: 0 },
        figure: bytes as u64,
    }
}

// A line of depolarizing noise, with the probability of these bits, before each measurement and after each u, c, p, e, m and k.
pub fn annotate(job: &[u8], p: u64, out: &mut [u8]) -> TextAnswer
    ensures { text_reply result out.new ≡ annotate_reply job.now p out.old }
{
    let answer = check(job);
    if answer.number != 0 {
        return refused(answer);
    }
    if probability(p).is_none() {
        return refused(Answer::refused(Refusal::Probability, 0));
    }
    annotate_accepted(job, p, out)
}
