// Settling of a job: its text with each noise instruction replaced by the injections that fall.
#![tactic(auto)]

ghost use Rattle.std.specs.Prelude.{◌≡◌, ◌++◌, leb};
ghost use Rattle.job.specs.Job.{job_of};
ghost use Rattle.job_shape.specs.Tested.{Tests};
ghost use Rattle.run.specs.Run.{outcome_words_of};
ghost use Rattle.writer.specs.Reply.{text_reply};
ghost use Rattle.backward.specs.Settling.{settle_reply};
ghost use Rattle.settling.specs.Pass.{pass_of};
ghost use Rattle.settling.specs.Whole.{Fits, SettledPut, SettledTo};

mod instruction_text;

use crate::instruction_text::{Reached, put_instruction};
use faults::elements::ELEMENTS_WORDS;
use job::limits::{MAX_ELEMENTS, MAX_WIDTH};
use job::{Answer, refusals};
use job_shape::{Tested, behind_header};
use noise::{FIRST_INSTRUCTION_LINE, Place};
use noise_text::Draws;
use rows::Shape;
use template::values::blank;
use writer::{TextAnswer, put_bytes, refused, text_fits};

// How long the text is, and how many words of the main list were taken for it.
#[derive(Clone, Copy)]
pub struct Length {
    pub bytes: usize,
    pub taken: usize,
}

// The line of the noise whose draws were spent, and how many words of the main list were taken.
#[derive(Clone, Copy)]
pub struct SpentAt {
    pub line: u64,
    pub taken: usize,
}

// An answer, and how many words of the main list were taken for it. Not generic over the answer with that of needed_words: neither crate is below the
// other.
#[derive(Clone, Copy)]
pub struct Answered {
    pub answer: TextAnswer,
    pub taken: usize,
}

// The settled text of an accepted job, written as far as the lent bytes go. The room for elements, sums, weights and the mask is made once, so that
// it is not cleared for each line.
fn put_settled<'a>(
    out: &mut [u8],
    job: &[u8],
    shape: Shape,
    noiseless: &[u64],
    draws: Draws<'a>,
) -> Result<Length, SpentAt>
    requires { Fits (pass_of job.now shape noiseless.now (draws.main.now ++ draws.more.now) draws.second.now draws.base) }
    ensures { SettledPut (pass_of job.now shape noiseless.now (draws.entry.main.now ++ draws.entry.more.now) draws.entry.second.now draws.entry.base) out.old out.new result }
{
    let mut values = blank();
    let mut elements = [0u64; ELEMENTS_WORDS];
    let mut sums = [0.0; MAX_ELEMENTS as usize];
    let mut weights = [0.0; MAX_ELEMENTS as usize];
    let mut mask = [0u64; MAX_WIDTH];
    let from = behind_header(job);
    let text = put_bytes(&mut *out, 0, &job[..from]);
    let mut here = Reached {
        place: Place {
            byte: from,
            line: FIRST_INSTRUCTION_LINE,
            position: 0,
        },
        text,
    };
    // A while: each instruction says where the next one begins.
    while here.place.byte < job.len() {
        match put_instruction(
            &mut *out,
            here,
            job,
            &mut values,
            &mut elements,
            &mut sums,
            &mut weights,
            &mut mask,
            shape,
            noiseless,
            draws,
        ) {
            Err(spent) => {
                return Err(SpentAt {
                    line: here.place.line,
                    taken: spent.position,
                });
            }
            Ok(next) => {
                here = next;
            }
        }
    }
    Ok(Length {
        bytes: here.text,
        taken: here.place.position,
    })
}

// An answer without a line, with the bytes that the text needs.
fn measured(number: u64, need: usize) -> TextAnswer
    ensures { result ≡ record { answer = record { number = number; line = 0 }; figure = need } }
{
    TextAnswer {
        answer: Answer { number, line: 0 },
        figure: need as u64,
    }
}

// The tests of a job, then 13.
pub fn tested(job: &[u8], noiseless: usize) -> Tested
    ensures { Tests job.now (leb (outcome_words_of (job_of job.now).header) noiseless) result }
{
    let r = job_shape::test(job);
    let answer = r.answer;
    if answer.number != 0 {
        return r;
    }
    let shape = r.shape;
    if noiseless < shape.outcomes * shape.width {
        return Tested {
            answer: Answer {
                number: refusals::WORDS,
                line: 0,
            },
            shape,
        };
    }
    r
}

// Settles a job that passed the tests. A first pass only measures the text, so that nothing is written with a refusal. With 15 no word is taken.
pub fn settle_tested<'a>(
    job: &[u8],
    shape: Shape,
    noiseless: &[u64],
    main: &'a [u64],
    more: &'a [u64],
    second: &'a [u64],
    base: u64,
    out: &mut [u8],
) -> Answered
    requires { Fits (pass_of job.now shape noiseless.now (main.now ++ more.now) second.now base) }
    ensures { SettledTo job.now (record { noiseless = noiseless.entry.now; main = main.now ++ more.now; second = second.now; base = base }) out.old out.new result }
{
    let draws = Draws {
        main,
        more,
        second,
        base,
    };
    let mut nothing = [0u8; 1];
    let length = match put_settled(&mut nothing[..0], job, shape, noiseless, draws) {
        Ok(length) => length,
        Err(spent) => {
            return Answered {
                answer: refused(Answer {
                    number: refusals::DRAWS,
                    line: spent.line,
                }),
                taken: spent.taken,
            };
        }
    };
    let need = length.bytes;
    if !text_fits(need, out.len()) {
        return Answered {
            answer: measured(refusals::ROOM, need),
            taken: 0,
        };
    }
    // The second pass comes to what the first came to.
    let _ = put_settled(&mut out[..need], job, shape, noiseless, draws);
    Answered {
        answer: measured(0, need),
        taken: length.taken,
    }
}

// Settles a job: the answer, the byte figure, and the settled text over the first of the lent bytes.
pub fn settle<'a>(
    job: &[u8],
    noiseless: &[u64],
    main: &'a [u64],
    second: &'a [u64],
    base: u64,
    out: &mut [u8],
) -> TextAnswer
    ensures { text_reply result out.new ≡ settle_reply job.now (record { noiseless = noiseless.entry.now; main = main.now; second = second.now; base = base }) out.old }
{
    let tested = tested(job, noiseless.len());
    let answer = tested.answer;
    if answer.number != 0 {
        return refused(answer);
    }
    let r = settle_tested(
        job,
        tested.shape,
        noiseless,
        main,
        &main[main.len()..],
        second,
        base,
        out,
    );
    r.answer
}
