// The table of single faults. Each group is carried back one time for all elements: the job's lines are read from the last to the first, each once
// for all groups, and the table is written from its end.
#![tactic(auto)]

ghost use Rattle.std.specs.Prelude.{◌≡◌, List, ℕ, ◌+◌, ◌^◌, ◌<◌, ◌≤◌, length};
ghost use Rattle.text.specs.Bytes.{unlines};
ghost use Rattle.text.specs.Template.{Value};
ghost use Rattle.job.specs.Grammar.{Written};
ghost use Rattle.job.specs.Job.{check_job, job_of};
ghost use Rattle.reader.specs.Parsed.{Said};
ghost use Rattle.writer.specs.Reply.{text_reply};
ghost use Rattle.single_faults.specs.Groups.{Groups};
ghost use Rattle.single_faults.specs.Table.{table_reply, table_answer, table_text, first_wide};
ghost use Rattle.single_faults.specs.Carried.{carried_rows};
ghost use Rattle.fault_table.specs.Rows.{rows_bytes};
ghost use Rattle.fault_table.specs.Said.{size_said};
ghost use Rattle.fault_table.specs.Table.{Measures, kept_after_of, TableReady, Grouped};

mod fault_rows;
mod groups;
mod groups_back;
mod noise_rows;

use crate::fault_rows::{KEPT_BYTES, KEPT_ELEMENTS, rows_length};
use crate::groups::{GROUP_WORDS, grouping};
use crate::groups_back::line_on_groups;
use crate::noise_rows::{is_wide, keep_marks, put_rows};
use checker::examine;
use correlations::size;
use instructions::is_noise;
use job::{Answer, refusals};
use known_lines::next_known;
use lines_from_last::line_start;
use reader::{Form, read_line};
use template::values::{Values, blank};
use writer::{TextAnswer, refused, text_fits};

const MAX_GROUPS: usize = 16;

// ---- How long the table is

// The bytes of the rows of line k.
fn line_bytes(form: Form, f: Values<'_>, k: u64, groups: usize) -> usize
    requires { (groups ≤ 16) × ((vs : List Value) × (w : Written) × Said form f.words.now vs w × (size_said w ≤ 255)) }
    ensures { (vs : List Value) (w : Written) → Said form f.entry.words.now vs w → result ≡ rows_bytes groups k (size_said w) 0 }
{
    if !is_noise(form) {
        return 0;
    }
    rows_length(k, size(form, f), groups)
}

// A noise line that is too wide for a table.
#[derive(Clone, Copy)]
struct WideLine {
    line: u64,
}

// The bytes of the table, or the first line that is too wide.
fn measure(job: &[u8], groups: usize) -> Result<usize, WideLine>
    requires { ((check_job job.now).number ≡ 0) × (groups ≤ 16) }
    ensures { Measures job.now groups result }
{
    let mut words = blank();
    let mut at = 0;
    let mut k: u64 = 1;
    let mut bytes = 0;
    // A while: a line is skipped in one turn, so no range hands out the places.
    while at < job.len() {
        let line = next_known(job, at, &mut words);
        let form = line.form;
        let values = Values { words: &words };
        if is_wide(form, values) {
            return Err(WideLine { line: k });
        }
        bytes += line_bytes(form, values, k, groups);
        at = line.end + 1;
        k += 1;
    }
    Ok(bytes)
}

// ---- The table

// How many elements are kept after a line: one more after an element, none after another instruction.
fn kept_after(form: Form, n: usize) -> usize
    requires { n + 1 < 2 ^ 64 }
    ensures { (f : List ℕ) (vs : List Value) (w : Written) → Said form f vs w → result ≡ kept_after_of w n }
{
    match form {
        Form::Element | Form::WeightedElement => n + 1,
        Form::Header | Form::EditionHeader => n,
        _ => 0,
    }
}

// The table of an accepted job, into as many bytes as it has.
fn put_table(out: &mut [u8], job: &[u8], lines: u64, state: &mut [u64], groups: usize)
    requires { TableReady job.now lines state.old groups out.old }
    ensures { (q : TableReady job.now lines state.old groups out.old) → out.new ≡ unlines (carried_rows (job_of job.now).header q.are (job_of job.now).instructions) }
{
    let mut words = blank();
    let mut kept = [0u8; KEPT_ELEMENTS * KEPT_BYTES];
    let mut n = 0;
    let mut place = out.len();
    let mut e = job.len();
    let mut k = lines;
    // A while, as in `measure`, from the last line to the first.
    while 0 < e {
        let at = line_start(job, e - 1);
        let form = read_line(&job[at..e - 1], &mut words);
        let values = Values { words: &words };
        keep_marks(&mut kept, n, groups, form, values, state);
        place = put_rows(&mut *out, place, k, form, values, state, groups, &kept);
        line_on_groups(&mut *state, groups, form, values);
        n = kept_after(form, n);
        k -= 1;
        e = at;
    }
}

// ---- The call

fn refusal(number: u64, line: u64) -> TextAnswer
    ensures { result ≡ record { answer = record { number = number; line = line }; figure = 0 } }
{
    refused(Answer { number, line })
}

// The table of an accepted job, and of groups that passed 17 and their 24: 24 at a noise line, then 15. It is measured first, since nothing is
// written with a refusal.
fn table_accepted(job: &[u8], lines: u64, list: &[u64], groups: usize, out: &mut [u8]) -> TextAnswer
    requires { Grouped job.now lines list.now groups }
    ensures { (q : Grouped job.now lines list.now groups) → text_reply result out.new ≡ table_answer (table_text (job_of job.now) q.are) (first_wide (job_of job.now).instructions) out.old }
{
    let bytes = match measure(job, groups) {
        Ok(bytes) => bytes,
        Err(wide) => return refusal(refusals::GROUPS, wide.line),
    };
    if !text_fits(bytes, out.len()) {
        return refusal(refusals::ROOM, 0);
    }
    let mut words = [0u64; MAX_GROUPS * GROUP_WORDS];
    let end = groups * GROUP_WORDS;
    groups::start(list, &mut words[..end]);
    put_table(&mut out[..bytes], job, lines, &mut words[..end], groups);
    TextAnswer {
        answer: Answer { number: 0, line: 0 },
        figure: bytes as u64,
    }
}

// The tests of the job, then 17 for all groups, 24 and 15.
pub fn fault_table(job: &[u8], groups: &[u64], out: &mut [u8]) -> TextAnswer
    ensures { text_reply result out.new ≡ table_reply job.now groups.now out.old }
{
    let found = examine(job);
    let answer = found.answer;
    if answer.number != 0 {
        return refused(answer);
    }
    let Some(n) = grouping(groups, found.recorded) else {
        return refusal(refusals::WALK, 0);
    };
    if n == 0 {
        return refusal(refusals::GROUPS, 0);
    }
    if MAX_GROUPS < n {
        return refusal(refusals::GROUPS, 0);
    }
    table_accepted(job, found.lines, groups, n, out)
}
