// A run, the settling of the same job and a walk back on the settled text, and whether they agree: the sum of a set's deltas in a shot equals modulo
// 2 the count of the walk.
#![tactic(auto)]

ghost use Rattle.std.specs.Prelude.{◌≡◌, true, false};
ghost use Rattle.job.specs.Job.{job_of, check_job};
ghost use Rattle.rows.specs.Words.{words_per_row};
ghost use Rattle.run.specs.Run.{Source, Memory};
ghost use Rattle.agreement.specs.Agree.{refused_by, AgreeReply, agree_reply};

use checker::examine;
use job::Answer;
use pauli::{LAST_BIT, Shot, WORD_BITS};
use runner::run;
use settling::settle;
use totals::delta_sum;
use walker::walk;

// The calls, in their order.
#[derive(Clone, Copy)]
pub enum Call {
    Run,
    Settle,
    Walk,
}

// The last call that was made, which is the first that refused, if any did, and its answer. Where none refused: the sum modulo 2 of the set's deltas
// in the shot, the walk's count, and whether these are equal modulo 2. The figure is the byte figure of settling.
#[derive(Clone, Copy)]
pub struct Agreement {
    pub call: Call,
    pub answer: Answer,
    pub figure: u64,
    pub sum: u64,
    pub count: u64,
    pub agrees: bool,
}

fn refused(call: Call, answer: Answer, figure: u64) -> Agreement
    ensures { result ≡ refused_by call answer figure }
{
    Agreement {
        call,
        answer,
        figure,
        sum: 0,
        count: 0,
        agrees: false,
    }
}

// The words of a row, by the header of an accepted job.
fn row_words(job: &[u8]) -> usize
    requires { (check_job job.now).number ≡ 0 }
    ensures { result ≡ words_per_row (job_of job.now).header.shots }
{
    let found = examine(job);
    let header = found.header;
    (header.shots as usize + LAST_BIT) / WORD_BITS
}

// Runs a job, settles it with the same draws and noiseless bits, walks back on the settled text for a set of outcomes and a shot, and compares. The
// lent words and bytes are left as the calls leave them; after a refusal no further call is made.
// Where none refuses the answer is always that they agree.
pub fn agree<'a>(
    job: &[u8],
    x: &mut [u64],
    z: &mut [u64],
    deltas: &mut [u64],
    totals: &mut [u64],
    noiseless: &[u64],
    main: &'a [u64],
    second: &'a [u64],
    base: u64,
    out: &mut [u8],
    shot: Shot,
    set: &[u64],
) -> Agreement
    ensures { (agree_reply job.now (record { x = x.entry.now; z = z.old; deltas = deltas.old; totals = totals.old; source = record { noiseless = noiseless.entry.now; main = main.now; second = second.now; base = base } }) out.old shot.0 set.now ≡ record { agreement = result; x = x.exit.now; z = z.new; deltas = deltas.new; totals = totals.new; out = out.new }) × (result.answer.number ≡ 0 → result.agrees ≡ true) }
{
    let ran = run(
        job,
        x,
        z,
        &mut *deltas,
        totals,
        noiseless,
        main,
        second,
        base,
    );
    if ran.number != 0 {
        return refused(Call::Run, ran, 0);
    }
    let settled = settle(job, noiseless, main, second, base, &mut *out);
    let figure = settled.figure;
    let written = settled.answer;
    if written.number != 0 {
        return refused(Call::Settle, written, figure);
    }
    let walked = walk(&out[..figure as usize], shot, set);
    let answer = walked.answered;
    if answer.number != 0 {
        return refused(Call::Walk, answer, figure);
    }
    let sum = delta_sum(deltas, row_words(job), shot, set);
    let count = walked.count;
    Agreement {
        call: Call::Walk,
        answer,
        figure,
        sum,
        count,
        agrees: sum == count % 2,
    }
}
