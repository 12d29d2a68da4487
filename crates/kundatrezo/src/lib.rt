// The calls for C and Rust: include/kundatrezo.h declares them, and says what a caller lends and gets.
//
// A slice is a pointer and a length in elements, an answer a struct by value. No call requires anything: lists of any length and a job of any bytes
// get an answer, and what is promised here is the whole of it.
#![tactic(auto)]

ghost use Rattle.std.specs.Prelude.{◌≡◌, List, ℕ, replicate};
ghost use Rattle.job.specs.Job.{check_job};
ghost use Rattle.examination.specs.Reply.{examine_reply};
ghost use Rattle.writer.specs.Reply.{text_reply};
ghost use Rattle.run.specs.Run.{run_reply};
ghost use Rattle.backward.specs.Settling.{settle_reply};
ghost use Rattle.shares.specs.Replies.{shared_run_reply, shared_settle_reply};
ghost use Rattle.backward.specs.Walking.{walk_reply};
ghost use Rattle.made.specs.Made.{make_reply};
ghost use Rattle.circuit.specs.Replies.{annotate_reply, locations_reply, correlation_reply};
ghost use Rattle.line_reader.specs.Reading.{part_numbered};
ghost use Rattle.single_faults.specs.Table.{table_reply};
ghost use Rattle.by_shot.specs.Reply.{by_shot_reply, by_outcome_reply};
ghost use Rattle.stream.specs.Stream.{fill_reply};

use examination::Examination;
use job::limits::MAX_OUTCOMES;
use job::{Answer, CountReply};
use line_reader::LinePart;
use pauli::Shot;
use writer::TextAnswer;

// The tests of a job.
#[unsafe(no_mangle)]
pub extern "C" fn kundatrezo_check(job: &[u8]) -> Answer
    ensures { result ≡ check_job job.now }
{
    checker::check(job)
}

// The tests of a job, and the numbers of an accepted one.
#[unsafe(no_mangle)]
pub extern "C" fn kundatrezo_examine(job: &[u8]) -> Examination
    ensures { result ≡ examine_reply job.now }
{
    examination::examine(job)
}

// A run of a job.
#[unsafe(no_mangle)]
pub extern "C" fn kundatrezo_run_totals<'a>(
    job: &[u8],
    x: &mut [u64],
    z: &mut [u64],
    deltas: &mut [u64],
    totals: &mut [u64],
    noiseless: &[u64],
    main: &'a [u64],
    second: &'a [u64],
    base: u64,
) -> Answer
    ensures { run_reply job.now (record { x = x.entry.now; z = z.old; deltas = deltas.old; totals = totals.old; source = record { noiseless = noiseless.entry.now; main = main.now; second = second.now; base = base } }) ≡ record { answered = result; x = x.exit.now; z = z.new; deltas = deltas.new; totals = totals.new } }
{
    runner::run(job, x, z, deltas, totals, noiseless, main, second, base)
}

// A run of a job for a caller that wants no totals: it keeps them in a list of its own, which has room for the outcomes of any header.
#[unsafe(no_mangle)]
pub extern "C" fn kundatrezo_run<'a>(
    job: &[u8],
    x: &mut [u64],
    z: &mut [u64],
    deltas: &mut [u64],
    noiseless: &[u64],
    main: &'a [u64],
    second: &'a [u64],
    base: u64,
) -> Answer
    ensures { (totals : List ℕ) × (run_reply job.now (record { x = x.entry.now; z = z.old; deltas = deltas.old; totals = replicate 1024 0; source = record { noiseless = noiseless.entry.now; main = main.now; second = second.now; base = base } }) ≡ record { answered = result; x = x.exit.now; z = z.new; deltas = deltas.new; totals = totals }) }
{
    let mut totals = [0u64; MAX_OUTCOMES as usize];
    runner::run(
        job,
        x,
        z,
        deltas,
        &mut totals,
        noiseless,
        main,
        second,
        base,
    )
}

// The job with its noise replaced by the injections that the same words draw.
#[unsafe(no_mangle)]
pub extern "C" fn kundatrezo_settle<'a>(
    job: &[u8],
    noiseless: &[u64],
    main: &'a [u64],
    second: &'a [u64],
    base: u64,
    out: &mut [u8],
) -> TextAnswer
    ensures { text_reply result out.new ≡ settle_reply job.now (record { noiseless = noiseless.entry.now; main = main.now; second = second.now; base = base }) out.old }
{
    settling::settle(job, noiseless, main, second, base, out)
}

// A run of a job by a caller with a share of the main list, whose marks are moved.
#[unsafe(no_mangle)]
pub extern "C" fn kundatrezo_run_shared<'a>(
    job: &[u8],
    x: &mut [u64],
    z: &mut [u64],
    deltas: &mut [u64],
    totals: &mut [u64],
    noiseless: &[u64],
    main: &'a [u64],
    second: &'a [u64],
    base: u64,
    shares: &[u64],
    marks: &mut [u64],
    caller: u64,
) -> Answer
    ensures { shared_run_reply job.now (record { x = x.entry.now; z = z.old; deltas = deltas.old; totals = totals.old; source = record { noiseless = noiseless.entry.now; main = main.now; second = second.now; base = base } }) (record { shares = shares.entry.now; marks = marks.old; caller = caller }) ≡ record { reply = record { answered = result; x = x.exit.now; z = z.new; deltas = deltas.new; totals = totals.new }; marks = marks.new } }
{
    shared_runs::run_shared(
        job, x, z, deltas, totals, noiseless, main, second, base, shares, marks, caller,
    )
}

// Settling by a caller with a share.
#[unsafe(no_mangle)]
pub extern "C" fn kundatrezo_settle_shared<'a>(
    job: &[u8],
    noiseless: &[u64],
    main: &'a [u64],
    second: &'a [u64],
    base: u64,
    shares: &[u64],
    marks: &mut [u64],
    caller: u64,
    out: &mut [u8],
) -> TextAnswer
    ensures { shared_settle_reply job.now (record { noiseless = noiseless.entry.now; main = main.now; second = second.now; base = base }) out.old (record { shares = shares.entry.now; marks = marks.old; caller = caller }) ≡ record { reply = text_reply result out.new; marks = marks.new } }
{
    shared_runs::settle_shared(
        job, noiseless, main, second, base, shares, marks, caller, out,
    )
}

// The walk of a set of outcomes in a shot, over a job without noise.
#[unsafe(no_mangle)]
pub extern "C" fn kundatrezo_walk(job: &[u8], shot: u64, set: &[u64]) -> CountReply
    ensures { result ≡ walk_reply job.now shot set.now }
{
    walker::walk(job, Shot(shot as usize), set)
}

// The job with depolarizing noise, whose probability has the bits p.
#[unsafe(no_mangle)]
pub extern "C" fn kundatrezo_annotate(job: &[u8], p: u64, out: &mut [u8]) -> TextAnswer
    ensures { text_reply result out.new ≡ annotate_reply job.now p out.old }
{
    annotation::annotate(job, p, out)
}

// How many fault locations a job has.
#[unsafe(no_mangle)]
pub extern "C" fn kundatrezo_locations(job: &[u8]) -> CountReply
    ensures { result ≡ locations_reply job.now }
{
    annotation::locations::locations(job)
}

// Whether noise lines of one correlation all have one size, as their lines say it.
#[unsafe(no_mangle)]
pub extern "C" fn kundatrezo_correlation(job: &[u8]) -> Answer
    ensures { result ≡ correlation_reply job.now }
{
    correlations::correlation(job)
}

// Where the line lies that an answer names, for a caller who shows it.
#[unsafe(no_mangle)]
pub extern "C" fn kundatrezo_line(job: &[u8], number: u64) -> LinePart
    ensures { result ≡ part_numbered job.now number }
{
    line_reader::line_part(job, number)
}

// Deltas, a row per outcome, as rows by shot.
#[unsafe(no_mangle)]
pub extern "C" fn kundatrezo_by_shot(
    outcomes: u64,
    shots: u64,
    deltas: &[u64],
    out: &mut [u64],
) -> Answer
    ensures { by_shot_reply outcomes shots deltas.now out.old ≡ record { answered = result; words = out.new } }
{
    by_shot::by_shot(outcomes, shots, deltas, out)
}

// Rows by shot as deltas.
#[unsafe(no_mangle)]
pub extern "C" fn kundatrezo_by_outcome(
    outcomes: u64,
    shots: u64,
    rows: &[u64],
    out: &mut [u64],
) -> Answer
    ensures { by_outcome_reply outcomes shots rows.now out.old ≡ record { answered = result; words = out.new } }
{
    by_shot::by_outcome(outcomes, shots, rows, out)
}

// The table of single faults: what each element of each noise line, as the only injection, does to each group of outcomes.
#[unsafe(no_mangle)]
pub extern "C" fn kundatrezo_fault_table(job: &[u8], groups: &[u64], out: &mut [u8]) -> TextAnswer
    ensures { text_reply result out.new ≡ table_reply job.now groups.now out.old }
{
    fault_table::fault_table(job, groups, out)
}

// The words of the stream that a seed gives.
#[unsafe(no_mangle)]
pub extern "C" fn kundatrezo_fill(seed: u64, words: &mut [u64]) -> Answer
    ensures { fill_reply seed words.old ≡ record { answered = result; words = words.new } }
{
    seed_words::fill(seed, words)
}

// A whole job from a seed.
#[unsafe(no_mangle)]
pub extern "C" fn kundatrezo_make(
    qubits: u64,
    outcomes: u64,
    shots: u64,
    lines: u64,
    seed: u64,
    out: &mut [u8],
) -> TextAnswer
    ensures { text_reply result out.new ≡ make_reply qubits outcomes shots lines seed out.old }
{
    job_maker::make(qubits, outcomes, shots, lines, seed, out)
}
