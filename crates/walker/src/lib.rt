// The walk back over a job without noise: for a set of outcomes and a shot,
// the count of the injections and flips that change the sum of the set's deltas.
#![tactic(auto)]

ghost use Rattle.std.specs.Prelude.{◌≡◌, true, ◌+◌, ◌-◌, ◌^◌, ◌<◌, length, get_or};
ghost use Rattle.std.proofs.Math.Option.{some};
ghost use Rattle.pauli.specs.Fixed.{in_set};
ghost use Rattle.text.specs.Bytes.{lines as Bytes·lines};
ghost use Rattle.job.specs.Grammar.{Written, read_line_of};
ghost use Rattle.job.specs.Job.{check_job};
ghost use Rattle.backward.specs.Walking.{walk_reply};
ghost use Rattle.template.specs.Values.{Whole};
ghost use Rattle.lines_from_last.specs.Line.{LineBefore, OfJob};
ghost use Rattle.walker.specs.Steps.{Started, WalkedBack, PassedOver, TextBack, Left, GatesGone};

use check_values::lists::all_below;
use checker::examine;
use gate_text::{is_gate, read_gate};
use job::{Answer, CountReply, refusals};
use lines_back::{Walk, line_back};
use lines_from_last::line_start;
use numbers::rising::is_rising;
use pauli::{Pauli, Shot};
use reader::slots::SHOT;
use reader::{LETTER, LETTER_END, read_line};
use template::read_on;
use template::values::{Values, blank};

// ---- One line

// Whether a line that begins as an injection does is one in another shot: read up to its shot alone.
fn other_shot(line: &[u8], shot: Shot, values: &mut [u64]) -> bool
    requires { Whole values.old }
    ensures { result ≡ true → get_or line.now 0 0 ≡ 111 → get_or line.now 3 0 ≡ 105 → (v : Written) → read_line_of line.now ≡ some v → PassedOver shot.0 v }
{
    let Some(_) = read_on(line, b"op=i shot=N ", template::start(), &mut *values) else {
        return false;
    };
    Values { words: values }.number(SHOT) as usize != shot.0
}

// Whether a line is passed over without being read to its end:
// a Pauli, an allocation, a barrier, or an injection in another shot, of which there are many.
fn passed_over(line: &[u8], shot: Shot, values: &mut [u64]) -> bool
    requires { Whole values.old }
    ensures { result ≡ true → (v : Written) → read_line_of line.now ≡ some v → PassedOver shot.0 v }
{
    if line.len() < LETTER_END || line[0] != b'o' {
        return false;
    }
    match line[LETTER] {
        b'i' => other_shot(line, shot, values),
        b'p' | b'r' | b'b' => true,
        _ => false,
    }
}

// A line of an accepted job, of number k, by its first bytes, or by its form and its values.
fn text_back(w: Walk, line: &[u8], values: &mut [u64], set: &mut [u64], shot: Shot, k: u64) -> Walk
    requires { OfJob line.now × (length set.old ≡ 16) × (w.count + 1 < 2 ^ 64) × Whole values.old }
    ensures { TextBack line.now shot.0 k w result set.old set.new }
{
    if passed_over(line, shot, &mut *values) {
        return w;
    }
    let form = read_line(line, &mut *values);
    line_back(w, form, Values { words: values }, set, shot, k)
}

// ---- Gate lines, of which a job has most

// What gate lines leave: the observable, and the line in front of them, by its start, the place behind its LF, and its number. With no line in front
// the two places are 0.
#[derive(Clone, Copy)]
struct Gates {
    observable: Pauli,
    start: usize,
    end: usize,
    number: u64,
}

// Back over the gate lines before a place, in front of which there are so many lines. They are read without testing their form again, and the
// observable alone is carried: the rest of the walk would be copied with it at each line.
fn gates_back(mut observable: Pauli, job: &[u8], mut end: usize, mut number: u64) -> Gates
    requires { ((check_job job.now).number ≡ 0) × Left job.now number end }
    ensures { GatesGone job.now observable number end result.observable result.number result.end × (0 < result.end → LineBefore job.now (result.end - 1) result.start) }
{
    // A while: each turn begins where the line behind starts.
    while 0 < end {
        let start = line_start(job, end - 1);
        let line = &job[start..end - 1];
        if !is_gate(line) {
            return Gates {
                observable,
                start,
                end,
                number,
            };
        }
        let gate = read_gate(line);
        observable = observable.conjugate_back(gate.code, gate.first, gate.second);
        number -= 1;
        end = start;
    }
    Gates {
        observable,
        start: end,
        end,
        number,
    }
}

// ---- All lines

fn start() -> Walk
    ensures { Started result }
{
    Walk {
        observable: Pauli::identity(),
        count: 0,
        noise: None,
    }
}

// All lines of an accepted job, of which there are so many. The set is carried back with the observable.
fn walk_lines(job: &[u8], lines: u64, shot: Shot, set: &mut [u64]) -> Walk
    requires { ((check_job job.now).number ≡ 0) × (lines ≡ length (Bytes·lines job.now)) × (length set.old ≡ 16) }
    ensures { WalkedBack job.now shot.0 (in_set set.old) result }
{
    let mut values = blank();
    let mut w = start();
    let mut e = job.len();
    let mut k = lines;
    // A while: each turn begins where the line behind starts.
    while 0 < e {
        let gates = gates_back(w.observable, job, e, k);
        w = w.with_observable(gates.observable);
        if gates.end == 0 {
            return w;
        }
        let line = &job[gates.start..gates.end - 1];
        w = text_back(w, line, &mut values, &mut *set, shot, gates.number);
        k = gates.number - 1;
        e = gates.start;
    }
    w
}

// ---- The call

fn refused(answered: Answer) -> CountReply
    ensures { result ≡ record { answered = answered; count = 0 } }
{
    CountReply { answered, count: 0 }
}

// The walk of a set of outcomes in a shot: the tests of the job, then 17, then 16.
pub fn walk(job: &[u8], shot: Shot, set: &[u64]) -> CountReply
    ensures { result ≡ walk_reply job.now shot.0 set.now }
{
    let found = examine(job);
    let answer = found.answer;
    if answer.number != 0 {
        return refused(answer);
    }
    let header = found.header;
    if header.shots <= shot.0 as u64 || !is_rising(set) || !all_below(set, found.recorded) {
        return refused(Answer {
            number: refusals::WALK,
            line: 0,
        });
    }
    let mut outcomes: [u64; 16] = pauli::set_of(set);
    let w = walk_lines(job, found.lines, shot, &mut outcomes);
    match w.noise {
        Some(line) => refused(Answer {
            number: refusals::NOISE,
            line,
        }),
        None => CountReply {
            answered: Answer { number: 0, line: 0 },
            count: w.count,
        },
    }
}
