// Replays stored cases of further calls from standard input, as `replay_calls` does those of others: `crates/replay/README.md` says how they are
// written. A program of its own, so that the two are checked side by side.
#![tactic(auto)]

use fault_table::fault_table;
use job_maker::make;
use replay::compare::{Difference, same_front};
use replay::record::Record;
use replay::{bytes_buffer, part_end, replay_input, words, words_buffer};
use seed_words::fill;
use shared_runs::{run_shared, settle_shared};

// ---- The table of single faults.

fn replay_fault_table(r: &Record, bytes: &[u8]) -> Result<(), Difference> {
    let mut groups = words_buffer();
    let mut out = bytes_buffer();
    let (job, rest) = r.part(0, bytes);
    let (text, rest) = r.part(1, rest);
    let k = words(rest, &mut groups);
    let n = text.len();
    if out.len() < n {
        return Err(Difference::Unreadable);
    }
    let reply = fault_table(job, &groups[..k], &mut out[..n]);
    r.same_text(reply, &out, text)
}

// ---- Callers with shares of the main list. The lists of a case are the marks before the call, the shares, the marks after it, the noiseless bits,
// the main and the second list, and of a run its rows and totals.
// The marks come first, so that a buffer into which all words are read begins with them.

fn settled(
    r: &Record,
    job: &[u8],
    lent: &[u64],
    marks: &mut [u64],
    text: &[u8],
) -> Result<(), Difference> {
    let mut out = bytes_buffer();
    let n = text.len();
    if out.len() < n {
        return Err(Difference::Unreadable);
    }
    let reply = settle_shared(
        job,
        r.list(3, lent),
        r.list(4, lent),
        r.list(5, lent),
        r.number(3),
        r.list(1, lent),
        &mut *marks,
        r.member(2, 0),
        &mut out[..n],
    );
    same_front(marks, r.list(2, lent))?;
    r.same_text(reply, &out, text)
}

fn replay_settle_shared(r: &Record, bytes: &[u8]) -> Result<(), Difference> {
    let mut lent = words_buffer();
    let mut marks = words_buffer();
    let (job, rest) = r.part(0, bytes);
    let (text, rest) = r.part(1, rest);
    let n = words(rest, &mut lent);
    words(rest, &mut marks);
    let m = part_end(0, r.member(1, 0), marks.len());
    settled(r, job, &lent[..n], &mut marks[..m], text)
}

// A run is lent more rows and totals than any job of the list needs.
fn ran(r: &Record, job: &[u8], lent: &[u64], marks: &mut [u64]) -> Result<(), Difference> {
    let mut x = words_buffer();
    let mut z = words_buffer();
    let mut deltas = words_buffer();
    let mut totals = words_buffer();
    let a = run_shared(
        job,
        &mut x,
        &mut z,
        &mut deltas,
        &mut totals,
        r.list(3, lent),
        r.list(4, lent),
        r.list(5, lent),
        r.number(3),
        r.list(1, lent),
        &mut *marks,
        r.member(2, 0),
    );
    r.same_answer(a.number, a.line, 0)?;
    same_front(marks, r.list(2, lent))?;
    same_front(&x, r.list(6, lent))?;
    same_front(&z, r.list(7, lent))?;
    same_front(&deltas, r.list(8, lent))?;
    same_front(&totals, r.list(9, lent))
}

fn replay_run_shared(r: &Record, bytes: &[u8]) -> Result<(), Difference> {
    let mut lent = words_buffer();
    let mut marks = words_buffer();
    let (job, rest) = r.part(0, bytes);
    let n = words(rest, &mut lent);
    words(rest, &mut marks);
    let m = part_end(0, r.member(1, 0), marks.len());
    ran(r, job, &lent[..n], &mut marks[..m])
}

// ---- Words and jobs from a seed.

fn replay_fill(r: &Record, bytes: &[u8]) -> Result<(), Difference> {
    let mut must = words_buffer();
    let mut lent = words_buffer();
    let n = words(bytes, &mut must);
    let a = fill(r.number(3), &mut lent[..n]);
    r.same_answer(a.number, a.line, 0)?;
    same_front(&lent, &must[..n])
}

fn replay_make(r: &Record, text: &[u8]) -> Result<(), Difference> {
    let mut out = bytes_buffer();
    let n = text.len();
    if out.len() < n {
        return Err(Difference::Unreadable);
    }
    let reply = make(
        r.member(0, 0),
        r.member(0, 1),
        r.member(0, 2),
        r.member(0, 3),
        r.number(3),
        &mut out[..n],
    );
    r.same_text(reply, &out, text)
}

// ---- The cases.

// Whether the call that a record names answers and leaves what it must.
// One template after the other: each call has its own, and no table may hold functions.
fn replay_case(line: &[u8], bytes: &[u8]) -> Result<(), Difference> {
    if let Some(r) = Record::read(line, b"fault_table number=N line=N figure=N bytes=Q") {
        return replay_fault_table(&r, bytes);
    }
    if let Some(r) = Record::read(
        line,
        b"settle_shared number=N line=N figure=N base=H bytes=Q words=Q caller=Q",
    ) {
        return replay_settle_shared(&r, bytes);
    }
    if let Some(r) = Record::read(
        line,
        b"run_shared number=N line=N figure=N base=H bytes=Q words=Q caller=Q",
    ) {
        return replay_run_shared(&r, bytes);
    }
    if let Some(r) = Record::read(line, b"fill number=N line=N figure=N seed=H") {
        return replay_fill(&r, bytes);
    }
    if let Some(r) = Record::read(line, b"make number=N line=N figure=N seed=H asked=Q") {
        return replay_make(&r, bytes);
    }
    Err(Difference::Unreadable)
}

fn main() {
    replay_input(replay_case);
}
