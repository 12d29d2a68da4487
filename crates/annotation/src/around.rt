// The annotated text, line by line.
ghost use Rattle.std.specs.Prelude.{◌≡◌, List, ℕ, ◌+◌, ◌*◌, ◌^◌, ◌<◌, ◌≤◌, length};
ghost use Rattle.std.proofs.Math.Option.{some};
ghost use Rattle.text.specs.Bytes.{unlines};
ghost use Rattle.text.specs.Template.{Value};
ghost use Rattle.job.specs.Grammar.{Written};
ghost use Rattle.job.specs.Job.{check_job};
ghost use Rattle.reader.specs.Parsed.{form_of};
ghost use Rattle.writer.specs.Placed.{Puts};
ghost use Rattle.line_writer.specs.Line.{depolarizing_start, StartOf};
ghost use Rattle.circuit.specs.Annotate.{noise_lines_of};
ghost use Rattle.annotation.specs.Lines.{before_it, around_text, Annotates};

use crate::line_qubits::{fit, noise_qubits};
use known_lines::next_known;
use line_writer::new_lines::{put_depolarizing, put_start};
use reader::Form;
use template::values::{KEPT, MAX_SLOTS, Values, blank};
use writer::put_bytes;

// A line's noise, from how its line begins: none over no qubits.
fn put_noise(out: &mut [u8], at: usize, start: &[u8], qubits: &[u64]) -> usize
    requires { (length qubits.now ≤ 31) × (at + (length start.now + (21 * length qubits.now + 31)) < 2 ^ 64) }
    ensures { (p : ℕ) → start.now ≡ depolarizing_start p → Puts at (unlines (noise_lines_of p qubits.now)) out.old out.new result }
{
    if qubits.len() == 0 {
        return at;
    }
    put_depolarizing(out, at, start, qubits)
}

// A line with its LF, and its noise before or after it.
fn put_around(
    out: &mut [u8],
    at: usize,
    line: &[u8],
    before: bool,
    start: &[u8],
    qubits: &[u64],
) -> usize
    requires { StartOf start.now × (length qubits.now ≤ 31) × (at + (length line.now + (21 * length qubits.now + 81)) < 2 ^ 64) }
    ensures { (p : ℕ) → start.now ≡ depolarizing_start p → Puts at (around_text before line.now (unlines (noise_lines_of p qubits.now))) out.old out.new result }
{
    if before {
        let next = put_noise(&mut *out, at, start, qubits);
        return put_bytes(out, next, line);
    }
    let next = put_bytes(&mut *out, at, line);
    put_noise(out, next, start, qubits)
}

// Noise goes before a measurement, and after the other lines.
fn noise_before(form: Form) -> bool
    ensures { (vs : List Value) (w : Written) → (form_of form).says vs ≡ some w → result ≡ before_it w }
{
    matches!(form, Form::Measure)
}

// A line that annotation does not fit: its noise would be over too many qubits.
#[derive(Clone, Copy)]
pub struct Unfit {
    pub line: u64,
}

// The annotated text of an accepted job, and how many bytes it takes.
pub fn put_annotated(out: &mut [u8], job: &[u8], p: u64) -> Result<usize, Unfit>
    requires { (check_job job.now).number ≡ 0 }
    ensures { Annotates job.now p result out.old out.new }
{
    let mut words = blank();
    let mut qubits = [0u64; MAX_SLOTS * KEPT];
    let mut start = [0u8; 50];
    put_start(&mut start, p);
    let mut at = 0;
    let mut k: u64 = 1;
    let mut next = 0;
    // A while: a line is skipped in one turn, so no range hands out the places.
    while at < job.len() {
        let line = next_known(job, at, &mut words);
        let form = line.form;
        let end = line.end + 1;
        let n = noise_qubits(form, Values { words: &words }, &mut qubits);
        let over = &qubits[..n];
        if !fit(over) {
            return Err(Unfit { line: k });
        }
        let before = noise_before(form);
        next = put_around(&mut *out, next, &job[at..end], before, &start, over);
        at = end;
        k += 1;
    }
    Ok(next)
}
