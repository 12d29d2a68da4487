// The correlation check: one size per corr. The correlations that were seen lie in a table of fixed size; where it is full, another round over the
// rest of the job begins, with an empty table. Correlations with one remainder are linked, so that one is found without a look at the others.
#![tactic(auto)]

ghost use Rattle.std.specs.Prelude.{◌≡◌, ◌+◌, ◌^◌, List, [], ◌<◌, length};
ghost use Rattle.text.specs.Template.{Value};
ghost use Rattle.job.specs.Grammar.{NoiseLine, Written};
ghost use Rattle.job.specs.Job.{check_job, job_of};
ghost use Rattle.reader.specs.Parsed.{Said};
ghost use Rattle.instructions.specs.Lines.{Left};
ghost use Rattle.instructions.specs.Ahead.{instructions_at};
ghost use Rattle.circuit.specs.Correlation.{first_differing_of};
ghost use Rattle.circuit.specs.Replies.{correlation_reply};
ghost use Rattle.correlations.specs.Sizes.{correlation_in, present, table_of, line_in};
ghost use Rattle.correlations.specs.Links.{remainder_of, PlaceOf, Linked, Table};
ghost use Rattle.correlations.specs.Rounds.{unlike, earliest, full_of, RoomFor, Looks, Remembers, Collects, RoundOf};

use checker::check;
use instructions::is_noise;
use job::{Answer, refusals};
use known_lines::next_known;
use reader::Form;
use reader::slots::{CORRELATION, LISTED_SIZE, SIZE};
use template::values::{Values, blank};

// How many correlations the table holds.
const SEEN: usize = 4096;

// How many a small one holds, which is sooner cleared.
const FEW_SEEN: usize = 256;

// The bytes for which the small one does: they hardly have more lines with a correlation than it holds.
const FEW_BYTES: usize = 16384;

// A prime, so that correlations at equal distances have many remainders, whatever the distance.
const REMAINDERS: usize = 4093;

// The links of a large table, and of a small one: for each remainder, and for each place.
const LINKS: usize = REMAINDERS + SEEN;

const FEW_LINKS: usize = REMAINDERS + FEW_SEEN;

// The remainder by which a correlation is found.
fn remainder(correlation: u64) -> usize
    ensures { result ≡ remainder_of correlation }
{
    correlation as usize % REMAINDERS
}

// Whether a line is noise with a corr.
fn is_correlated(form: Form, f: Values<'_>) -> bool
    ensures { (vs : List Value) (w : Written) → Said form f.entry.words.now vs w → result ≡ present (correlation_in w) }
{
    if !is_noise(form) {
        return false;
    }
    f.count(CORRELATION) != 0
}

// The size that a noise line says.
pub fn size(form: Form, f: Values<'_>) -> u64
    ensures { (vs : List Value) (n : NoiseLine) → Said form f.entry.words.now vs (Written.noise n) → result ≡ n.size }
{
    match form {
        Form::Uniform | Form::Weighted => f.number(LISTED_SIZE),
        _ => f.number(SIZE),
    }
}

// The place of a correlation, if it is among those that were seen. A link is one more than the place that it leads to, or 0: for each remainder the
// last place with it, then for each place the one before it with the same remainder.
// A link is a u16 and no Option, which takes twice the memory: a large table has 8,189 of them, and each round makes one anew.
fn place(seen: &[u64], links: &[u16], correlation: u64) -> Option<usize>
    requires { Linked seen.now links.now }
    ensures { PlaceOf correlation seen.now result }
{
    let first = remainder(correlation);
    let mut link = links[first];
    // A while: the links lead from place to place, so no range hands them out.
    while link != 0 {
        let i = link as usize - 1;
        if seen[i] == correlation {
            return Some(i);
        }
        link = links[REMAINDERS + i];
    }
    None
}

// A correlation and the size that its line says.
#[derive(Clone, Copy)]
struct Correlated {
    correlation: u64,
    size: u64,
}

// A line whose size is not that of its correlation.
#[derive(Clone, Copy)]
struct Differing {
    line: u64,
}

// What a line has that is new to the table.
fn look(
    form: Form,
    f: Values<'_>,
    line: u64,
    seen: &[u64],
    sizes: &[u64],
    links: &[u16],
) -> Result<Option<Correlated>, Differing>
    requires { (length seen.now ≡ length sizes.now) × Linked seen.now links.now }
    ensures { Looks form f.entry.words.now line seen.now sizes.now result }
{
    if !is_correlated(form, f) {
        return Ok(None);
    }
    let correlation = f.member(CORRELATION, 0);
    let size = size(form, f);
    let Some(i) = place(seen, links, correlation) else {
        return Ok(Some(Correlated { correlation, size }));
    };
    if sizes[i] != size {
        return Err(Differing { line });
    }
    Ok(None)
}

// Whether the table has no room for what is new.
fn is_full(new: Option<Correlated>, n: usize, room: usize) -> bool
    ensures { result ≡ full_of new n room }
{
    match new {
        Some(_) => n == room,
        None => false,
    }
}

// The table with what is new, and how many it holds.
fn remember(
    new: Option<Correlated>,
    n: usize,
    seen: &mut [u64],
    sizes: &mut [u64],
    links: &mut [u16],
) -> usize
    requires { Table n seen.old sizes.old links.old × RoomFor new n seen.old }
    ensures { Remembers new n seen.old sizes.old result seen.new sizes.new links.new }
{
    let Some(l) = new else {
        return n;
    };
    let first = remainder(l.correlation);
    links[REMAINDERS + n] = links[first];
    links[first] = (n + 1) as u16;
    seen[n] = l.correlation;
    sizes[n] = l.size;
    n + 1
}

// How many correlations the table holds, and the line that it has no room for, or the job's end.
#[derive(Clone, Copy)]
struct Collected {
    n: usize,
    at: usize,
    number: u64,
}

// The sizes of the correlations from a line on, up to a line that differs, or as far as the table has room.
fn collect(
    job: &[u8],
    from: usize,
    number: u64,
    seen: &mut [u64],
    sizes: &mut [u64],
    links: &mut [u16],
) -> Result<Collected, Differing>
    requires { Left job.now number from × (from < length job.now) × (0 < length seen.old) × Table 0 seen.old sizes.old links.old }
    ensures { Collects job.now number from result seen.new sizes.new links.new }
{
    let mut words = blank();
    let mut at = from;
    let mut k = number;
    let mut n = 0;
    // A while: a line is skipped in one turn, so no range hands out the places.
    while at < job.len() {
        let line = next_known(job, at, &mut words);
        let form = line.form;
        let values = Values { words: &words };
        let new = look(form, values, k, &seen[..n], &sizes[..n], &*links)?;
        if is_full(new, n, seen.len()) {
            return Ok(Collected { n, at, number: k });
        }
        n = remember(new, n, &mut *seen, &mut *sizes, &mut *links);
        at = line.end + 1;
        k += 1;
    }
    Ok(Collected { n, at, number: k })
}

// The first line from a line on that differs from the table.
fn compare(
    job: &[u8],
    from: usize,
    number: u64,
    seen: &[u64],
    sizes: &[u64],
    links: &[u16],
) -> Option<u64>
    requires { Left job.now number from × (length seen.now ≡ length sizes.now) × Linked seen.now links.now }
    ensures { line_in result ≡ unlike (table_of seen.now sizes.now) (instructions_at job.now number from) }
{
    let mut words = blank();
    let mut at = from;
    let mut k = number;
    // A while, as in `collect`.
    while at < job.len() {
        let line = next_known(job, at, &mut words);
        let form = line.form;
        let values = Values { words: &words };
        if let Err(d) = look(form, values, k, seen, sizes, links) {
            return Some(d.line);
        }
        at = line.end + 1;
        k += 1;
    }
    None
}

// A line that differs, if there is one, and where the next round begins.
#[derive(Clone, Copy)]
struct Found {
    differing: Option<u64>,
    at: usize,
    number: u64,
}

// A round with a table of any size, which is empty.
fn round_with(
    job: &[u8],
    from: usize,
    number: u64,
    seen: &mut [u64],
    sizes: &mut [u64],
    links: &mut [u16],
) -> Found
    requires { Left job.now number from × (from < length job.now) × (0 < length seen.old) × Table 0 seen.old sizes.old links.old }
    ensures { RoundOf job.now number from result }
{
    let c = match collect(job, from, number, &mut *seen, &mut *sizes, &mut *links) {
        Ok(c) => c,
        Err(d) => {
            return Found {
                differing: Some(d.line),
                at: job.len(),
                number: 0,
            };
        }
    };
    let n = c.n;
    let differing = compare(job, c.at, c.number, &seen[..n], &sizes[..n], &*links);
    Found {
        differing,
        at: c.at,
        number: c.number,
    }
}

// A round with an empty table for N correlations, and L links.
fn round_of<const N: usize, const L: usize>(job: &[u8], from: usize, number: u64) -> Found
    requires { Left job.now number from × (from < length job.now) × (0 < N) × (L ≡ 4093 + N) × (N < 2 ^ 16) }
    ensures { RoundOf job.now number from result }
{
    let mut seen = [0u64; N];
    let mut sizes = [0u64; N];
    let mut links = [0u16; L];
    round_with(job, from, number, &mut seen, &mut sizes, &mut links)
}

fn round(job: &[u8], from: usize, number: u64) -> Found
    requires { Left job.now number from × (from < length job.now) }
    ensures { RoundOf job.now number from result }
{
    if job.len() - from <= FEW_BYTES {
        return round_of::<FEW_SEEN, FEW_LINKS>(job, from, number);
    }
    round_of::<SEEN, LINKS>(job, from, number)
}

// The earlier of two lines, of which there may be none.
fn earlier(a: Option<u64>, b: Option<u64>) -> Option<u64>
    ensures { line_in result ≡ earliest (line_in a) (line_in b) }
{
    let Some(x) = a else {
        return b;
    };
    let Some(y) = b else {
        return a;
    };
    Some(x.min(y))
}

// The first line of an accepted job whose size is not that of the first line with its corr.
fn first_differing(job: &[u8]) -> Option<u64>
    requires { (check_job job.now).number ≡ 0 }
    ensures { line_in result ≡ first_differing_of [] (job_of job.now).instructions }
{
    let mut at = 0;
    let mut k: u64 = 1;
    let mut differing = None;
    // A while: a round goes over many lines, so no range hands out the places.
    while at < job.len() {
        let r = round(job, at, k);
        differing = earlier(differing, r.differing);
        at = r.at;
        k = r.number;
    }
    differing
}

// The tests of a job, then 19.
pub fn correlation(job: &[u8]) -> Answer
    ensures { result ≡ correlation_reply job.now }
{
    let answer = check(job);
    if answer.number != 0 {
        return answer;
    }
    match first_differing(job) {
        Some(line) => Answer {
            number: refusals::SIZES,
            line,
        },
        None => Answer { number: 0, line: 0 },
    }
}
