// The printed session of a job: its refusal, or its header's numbers and the deltas of its recorded outcomes.
ghost use Rattle.std.specs.Prelude.{◌≡◌};
ghost use Rattle.session.specs.Session.{small_enough, printed};
ghost use Rattle.writer.specs.Placed.{Puts};
ghost use Rattle.kundatrezo_print.specs.Ran.{ran_text, RunsSmall, Lends};

use checker::examine;
use job::{Answer, Header, refusals};
use runner::run;
use session_text::{put_refusal, put_session};

// The program's limits.
const MAX_BYTES: usize = 65536;

const MAX_QUBITS: u64 = 64;

const MAX_OUTCOMES: u64 = 256;

const MAX_SHOTS: u64 = 64;

// Whether a header is within the program's limits.
fn is_small(h: Header) -> bool
    ensures { result ≡ small_enough h }
{
    if MAX_QUBITS < h.qubits {
        return false;
    }
    if MAX_OUTCOMES < h.outcomes {
        return false;
    }
    h.shots <= MAX_SHOTS
}

// An input or a header above the program's limits.
fn too_large() -> Answer
    ensures { result ≡ record { number = 13; line = 0 } }
{
    Answer {
        number: refusals::WORDS,
        line: 0,
    }
}

// What a run of an accepted job comes to, over exactly the words that it needs. The noiseless bits are 0, and the draws are none.
fn put_run(
    out: &mut [u8],
    job: &[u8],
    h: Header,
    n: usize,
    x: &mut [u64],
    z: &mut [u64],
    deltas: &mut [u64],
    totals: &mut [u64],
    noiseless: &[u64],
) -> usize
    requires { (RunsSmall job.now h n) × Lends h x.old z.old deltas.old totals.old noiseless.now }
    ensures { Puts 0 (ran_text job.now) out.old out.new result }
{
    let none = &noiseless[..0];
    let a = run(job, x, z, &mut *deltas, totals, noiseless, none, none, 0);
    if a.number != 0 {
        return put_refusal(out, a);
    }
    put_session(out, h, deltas, n)
}

// The same over words of its own: a row has one word at most.
fn put_reply(out: &mut [u8], job: &[u8], h: Header, n: usize) -> usize
    requires { RunsSmall job.now h n }
    ensures { Puts 0 (ran_text job.now) out.old out.new result }
{
    let mut x = [0u64; 64];
    let mut z = [0u64; 64];
    let mut deltas = [0u64; 256];
    let mut totals = [0u64; 256];
    let noiseless = [0u64; 256];
    let shape = row_loops::shape_of(h.qubits as usize, h.outcomes as usize, h.shots as usize);
    let frame = shape.qubits * shape.width;
    let outcomes = shape.outcomes * shape.width;
    put_run(
        out,
        job,
        h,
        n,
        &mut x[..frame],
        &mut z[..frame],
        &mut deltas[..outcomes],
        &mut totals[..shape.outcomes],
        &noiseless[..outcomes],
    )
}

// The printed session of an input, written as far as the lent bytes go; how many bytes it has.
pub fn print_session(input: &[u8], out: &mut [u8]) -> usize
    ensures { Puts 0 (printed input.now) out.old out.new result }
{
    if MAX_BYTES < input.len() {
        return put_refusal(out, too_large());
    }
    let e = examine(input);
    let answer = e.answer;
    if answer.number != 0 {
        return put_refusal(out, answer);
    }
    let h = e.header;
    if !is_small(h) {
        return put_refusal(out, too_large());
    }
    put_reply(out, input, h, e.recorded as usize)
}
