// A run of a job: the tests, then its instructions one after the other on the lent words.
#![tactic(auto)]

ghost use Rattle.std.specs.Prelude.{◌≡◌, ◌++◌};
ghost use Rattle.run.specs.Run.{Source, Memory, RunReply, run_reply};
ghost use Rattle.runner.specs.Ran.{RunReady, RanTo};

use execution::Draws;
use job::Answer;
use job_shape::behind_header;
use job_shape::lent_words::{Lengths, tested};
use needed_words::{Answered, run_needed};
use rows::Shape;

// A run of a job that passed the tests, for which enough is lent. The main list lies in two parts, `main`, and behind it `more`.
pub fn run_tested<'a>(
    job: &[u8],
    shape: Shape,
    x: &mut [u64],
    z: &mut [u64],
    deltas: &mut [u64],
    totals: &mut [u64],
    noiseless: &[u64],
    main: &'a [u64],
    more: &'a [u64],
    second: &'a [u64],
    base: u64,
) -> Answered
    requires { RunReady job.now shape x.old z.old deltas.old totals.old noiseless.now }
    ensures { RanTo job.now (record { x = x.entry.now; z = z.old; deltas = deltas.old; totals = totals.old; source = record { noiseless = noiseless.entry.now; main = main.now ++ more.now; second = second.now; base = base } }) x.exit.now z.new deltas.new totals.new result }
{
    let frame_words = shape.qubits * shape.width;
    let outcome_words = shape.outcomes * shape.width;
    let from = behind_header(job);
    run_needed(
        job,
        from,
        &mut x[..frame_words],
        &mut z[..frame_words],
        &mut deltas[..outcome_words],
        &mut totals[..shape.outcomes],
        shape,
        noiseless,
        Draws {
            main,
            more,
            second,
            base,
        },
    )
}

// A run of a job over lent words: the X and Z parts of the frames, the deltas and their totals, which are written, the noiseless bits, the main and
// the second list of draws, and the base of the second. The words beyond those that are needed stay, and a refusal other than 14 writes nothing.
pub fn run<'a>(
    job: &[u8],
    x: &mut [u64],
    z: &mut [u64],
    deltas: &mut [u64],
    totals: &mut [u64],
    noiseless: &[u64],
    main: &'a [u64],
    second: &'a [u64],
    base: u64,
) -> Answer
    ensures { run_reply job.now (record { x = x.entry.now; z = z.old; deltas = deltas.old; totals = totals.old; source = record { noiseless = noiseless.entry.now; main = main.now; second = second.now; base = base } }) ≡ record { answered = result; x = x.exit.now; z = z.new; deltas = deltas.new; totals = totals.new } }
{
    let tested = tested(
        job,
        Lengths {
            x: x.len(),
            z: z.len(),
            deltas: deltas.len(),
            totals: totals.len(),
            noiseless: noiseless.len(),
        },
    );
    let answer = tested.answer;
    if answer.number != 0 {
        return answer;
    }
    // Without shares the second part is empty.
    let r = run_tested(
        job,
        tested.shape,
        x,
        z,
        deltas,
        totals,
        noiseless,
        main,
        &main[main.len()..],
        second,
        base,
    );
    r.answer
}
