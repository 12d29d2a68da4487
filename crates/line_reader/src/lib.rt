// A reader over a job's bytes, which hands out one line after another: a struct that holds the job and a place in it, and thin functions over a core
// that takes a slice and numbers. A caller makes its reader in place, `Reader { job, at: 0 }`. A caller that keeps the place itself calls the core.
#![tactic(auto)]

ghost use Rattle.std.specs.Prelude.{◌≡◌, ◌-◌, ◌<◌, ◌≤◌, cond, ltb, length};
ghost use Rattle.line_reader.specs.Reading.{line_from_of, behind, behind_lines, part_numbered};

use numbers::pieces::{find, find_far};

#[derive(Clone, Copy)]
pub struct Reader<'a> {
    pub job: &'a [u8],
    pub at: usize,
}

// The line that begins at a place, without the LF that ends it. From the job's end on it is empty. `fewest` is a number of bytes that the line is
// known to have: if it is not 0 the line is short, and its end is near after them.
pub fn line_from<'a>(job: &'a [u8], at: usize, fewest: usize) -> &'a [u8]
    requires { fewest ≤ length (line_from_of job.now at) }
    ensures { result.now ≡ line_from_of job.now at }
{
    if job.len() <= at {
        return &job[job.len()..];
    }
    if fewest == 0 {
        let far = find_far(job, at, b'\n');
        return &job[at..far];
    }
    let near = find(job, at + fewest, b'\n');
    &job[at..near]
}

// Where the next line begins, after the line that begins at a place.
pub fn place_behind<'a>(job: &'a [u8], at: usize, line: &'a [u8]) -> usize
    ensures { line.now ≡ line_from_of job.now at → result ≡ behind job.now at }
{
    if job.len() <= at {
        return job.len();
    }
    let end = at + line.len();
    if end < job.len() {
        return end + 1;
    }
    job.len()
}

// Hands out the next line, and goes on after it.
pub fn next_line<'s, 'a>(r: &'s mut Reader<'a>) -> &'a [u8]
    ensures { (result.now ≡ line_from_of r.old.job.now r.old.at) × (r.new.job ≡ r.old.job) × (r.new.at ≡ behind r.old.job.now r.old.at) }
{
    let job = r.job;
    let at = r.at;
    let line = line_from(job, at, 0);
    r.at = place_behind(job, at, line);
    line
}

// How many lines are left to pass after one more. From the job's end on there are none, so a number far beyond the last line takes no time.
fn lines_left(left: u64, at: usize, size: usize) -> u64
    requires { 0 < left }
    ensures { result ≡ cond (ltb at size) (left - 1) 0 }
{
    if at < size {
        return left - 1;
    }
    0
}

// Where a reader is after a number of lines.
fn nth_start(job: &[u8], count: u64) -> usize
    ensures { result ≡ behind_lines count job.now 0 }
{
    let mut r = Reader { job, at: 0 };
    let mut left = count;
    // A while: behind the job's end no line is left, however many were asked for.
    while 0 < left {
        next_line(&mut r);
        left = lines_left(left, r.at, job.len());
    }
    r.at
}

// Where a line lies in a job: its first byte, and how many bytes it has.
#[repr(C)]
#[derive(Clone, Copy)]
pub struct LinePart {
    pub start: usize,
    pub len: usize,
}

// Where the line with a number lies, the first line's being 1. If there is no such line it starts at the job's end. It is for a caller in C, who has
// the job's bytes and to whom no slice can be returned.
pub fn line_part(job: &[u8], number: u64) -> LinePart
    ensures { result ≡ part_numbered job.now number }
{
    if number == 0 {
        return LinePart {
            start: job.len(),
            len: 0,
        };
    }
    let start = nth_start(job, number - 1);
    let line = line_from(job, start, 0);
    LinePart {
        start,
        len: line.len(),
    }
}
