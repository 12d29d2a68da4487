// A run and settling by a caller with a share of the main list.
#![tactic(auto)]

ghost use Rattle.std.specs.Prelude.{◌≡◌};
ghost use Rattle.writer.specs.Reply.{text_reply};
ghost use Rattle.shares.specs.Replies.{shared_run_reply, shared_settle_reply};
ghost use Rattle.shared_runs.specs.Refusal.{first_refusal_of};

use job::Answer;
use job_shape::lent_words::Lengths;
use runner::run_tested;
use settling::settle_tested;
use share_marks::{common, mark_taken, own, share_number};
use writer::{TextAnswer, refused};

// The tests of a job and of what is lent to it, which answered, come first, then those of the share.
fn first_refusal(answer: Answer, main: &[u64], shares: &[u64], marks: &[u64], caller: u64) -> Answer
    ensures { result ≡ first_refusal_of answer (record { shares = shares.entry.now; marks = marks.now; caller = caller }) main.now }
{
    if answer.number != 0 {
        return answer;
    }
    match share_number(main, shares, marks, caller) {
        Ok(()) => Answer::accepted(),
        Err(refusal) => Answer::refused(refusal, 0),
    }
}

// A run of a job by a caller with a share: of the main list it reads what is left of the caller's stretch, then of the common part, and marks what it
// has taken. With a refusal other than 14 no mark is moved.
pub fn run_shared<'a>(
    job: &[u8],
    x: &mut [u64],
    z: &mut [u64],
    deltas: &mut [u64],
    totals: &mut [u64],
    noiseless: &[u64],
    main: &'a [u64],
    second: &'a [u64],
    base: u64,
    shares: &[u64],
    marks: &mut [u64],
    caller: u64,
) -> Answer
    ensures { shared_run_reply job.now (record { x = x.entry.now; z = z.old; deltas = deltas.old; totals = totals.old; source = record { noiseless = noiseless.entry.now; main = main.now; second = second.now; base = base } }) (record { shares = shares.entry.now; marks = marks.old; caller = caller }) ≡ record { reply = record { answered = result; x = x.exit.now; z = z.new; deltas = deltas.new; totals = totals.new }; marks = marks.new } }
{
    let tested = job_shape::lent_words::tested(
        job,
        Lengths {
            x: x.len(),
            z: z.len(),
            deltas: deltas.len(),
            totals: totals.len(),
            noiseless: noiseless.len(),
        },
    );
    let answer = first_refusal(tested.answer, main, shares, marks, caller);
    if answer.number != 0 {
        return answer;
    }
    let words = own(main, shares, marks, caller as usize);
    let more = common(main, shares, marks);
    let r = run_tested(
        job,
        tested.shape,
        x,
        z,
        deltas,
        totals,
        noiseless,
        words,
        more,
        second,
        base,
    );
    mark_taken(marks, shares.len(), caller as usize, words.len(), r.taken);
    r.answer
}

// Settling by a caller with a share, of the same words.
pub fn settle_shared<'a>(
    job: &[u8],
    noiseless: &[u64],
    main: &'a [u64],
    second: &'a [u64],
    base: u64,
    shares: &[u64],
    marks: &mut [u64],
    caller: u64,
    out: &mut [u8],
) -> TextAnswer
    ensures { shared_settle_reply job.now (record { noiseless = noiseless.entry.now; main = main.now; second = second.now; base = base }) out.old (record { shares = shares.entry.now; marks = marks.old; caller = caller }) ≡ record { reply = text_reply result out.new; marks = marks.new } }
{
    let tested = settling::tested(job, noiseless.len());
    let answer = first_refusal(tested.answer, main, shares, marks, caller);
    if answer.number != 0 {
        return refused(answer);
    }
    let words = own(main, shares, marks, caller as usize);
    let more = common(main, shares, marks);
    let r = settle_tested(job, tested.shape, noiseless, words, more, second, base, out);
    mark_taken(marks, shares.len(), caller as usize, words.len(), r.taken);
    r.answer
}
