// Replays stored cases of the calls from standard input: `crates/replay/README.md` says how they are written. Prints where a case differs, then how
// many cases there were and how many differ.
#![tactic(auto)]

ghost use Rattle.std.specs.Prelude.{◌≤◌, length};

use annotation::annotate;
use annotation::locations::locations;
use checker::check;
use correlations::correlation;
use pauli::Shot;
use replay::compare::{Difference, same_front};
use replay::record::Record;
use replay::{bytes_buffer, replay_input, words, words_buffer};
use runner::run;
use settling::settle;
use walker::walk;

// ---- Calls that write nothing.

fn replay_check(r: &Record, job: &[u8]) -> Result<(), Difference> {
    let a = check(job);
    r.same_answer(a.number, a.line, 0)
}

fn replay_correlation(r: &Record, job: &[u8]) -> Result<(), Difference> {
    let a = correlation(job);
    r.same_answer(a.number, a.line, 0)
}

fn replay_locations(r: &Record, job: &[u8]) -> Result<(), Difference> {
    let reply = locations(job);
    let a = reply.answered;
    r.same_answer(a.number, a.line, reply.count)
}

fn replay_walk(r: &Record, bytes: &[u8]) -> Result<(), Difference> {
    let mut set = words_buffer();
    let (job, rest) = r.part(0, bytes);
    let n = words(rest, &mut set);
    let reply = walk(job, Shot(r.number(3) as usize), &set[..n]);
    let a = reply.answered;
    r.same_answer(a.number, a.line, reply.count)
}

// ---- Calls that write text.

fn replay_annotate(r: &Record, bytes: &[u8]) -> Result<(), Difference> {
    let mut out = bytes_buffer();
    let (job, text) = r.part(0, bytes);
    let n = text.len();
    if out.len() < n {
        return Err(Difference::Unreadable);
    }
    let reply = annotate(job, r.number(3), &mut out[..n]);
    r.same_text(reply, &out, text)
}

fn replay_settle(r: &Record, bytes: &[u8]) -> Result<(), Difference> {
    let mut lent = words_buffer();
    let mut out = bytes_buffer();
    let (job, rest) = r.part(0, bytes);
    let (text, rest) = r.part(1, rest);
    let k = words(rest, &mut lent);
    let n = text.len();
    if out.len() < n {
        return Err(Difference::Unreadable);
    }
    let reply = settle(
        job,
        r.list(0, &lent[..k]),
        r.list(1, &lent[..k]),
        r.list(2, &lent[..k]),
        r.number(3),
        &mut out[..n],
    );
    r.same_text(reply, &out, text)
}

// ---- The call that writes words.

// Whether a run answers and leaves what it must: rows and totals as long as the lists of those.
fn ran(r: &Record, job: &[u8], lent: &[u64]) -> Result<(), Difference>
    requires { length lent.now ≤ 32768 }
{
    let must_x = r.list(3, lent);
    let must_z = r.list(4, lent);
    let must_deltas = r.list(5, lent);
    let must_totals = r.list(6, lent);
    let mut x = words_buffer();
    let mut z = words_buffer();
    let mut deltas = words_buffer();
    let mut totals = words_buffer();
    let a = run(
        job,
        &mut x[..must_x.len()],
        &mut z[..must_z.len()],
        &mut deltas[..must_deltas.len()],
        &mut totals[..must_totals.len()],
        r.list(0, lent),
        r.list(1, lent),
        r.list(2, lent),
        r.number(3),
    );
    r.same_answer(a.number, a.line, 0)?;
    same_front(&x, must_x)?;
    same_front(&z, must_z)?;
    same_front(&deltas, must_deltas)?;
    same_front(&totals, must_totals)
}

fn replay_run(r: &Record, bytes: &[u8]) -> Result<(), Difference> {
    let mut lent = words_buffer();
    let (job, rest) = r.part(0, bytes);
    let n = words(rest, &mut lent);
    ran(r, job, &lent[..n])
}

// ---- The cases.

fn replay_writing(line: &[u8], bytes: &[u8]) -> Result<(), Difference> {
    if let Some(r) = Record::read(line, b"annotate number=N line=N figure=N p=H bytes=Q") {
        return replay_annotate(&r, bytes);
    }
    if let Some(r) = Record::read(
        line,
        b"settle number=N line=N figure=N base=H bytes=Q words=Q",
    ) {
        return replay_settle(&r, bytes);
    }
    if let Some(r) = Record::read(line, b"run number=N line=N figure=N base=H bytes=Q words=Q") {
        return replay_run(&r, bytes);
    }
    Err(Difference::Unreadable)
}

// Whether the call that a record names answers and leaves what it must.
// One template after the other: each call has its own, and no table may hold functions.
fn replay_case(line: &[u8], bytes: &[u8]) -> Result<(), Difference> {
    if let Some(r) = Record::read(line, b"check number=N line=N") {
        return replay_check(&r, bytes);
    }
    if let Some(r) = Record::read(line, b"correlation number=N line=N") {
        return replay_correlation(&r, bytes);
    }
    if let Some(r) = Record::read(line, b"locations number=N line=N count=N") {
        return replay_locations(&r, bytes);
    }
    if let Some(r) = Record::read(line, b"walk number=N line=N count=N shot=N bytes=Q") {
        return replay_walk(&r, bytes);
    }
    replay_writing(line, bytes)
}

fn main() {
    replay_input(replay_case);
}
